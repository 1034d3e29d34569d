//! How much was done in all.

use crate::log_lines::MARK;
use crate::objects::LogForm;
use acc_base::Step;
use acc_read::Page;

/// What stands before each total in the last line of a log, and the name of its field in an object, in their order.
const NAMES: [(&str, &str); 8] = [
    (" mapped ", "mapped"),
    (" ended ", "ended"),
    (" copied in ", "copied_in"),
    (" bytes ", "bytes_in"),
    (" copied out ", "copied_out"),
    (" bytes ", "bytes_out"),
    (" waiting ", "waiting"),
    (" refused ", "refused"),
];

/// The total of statements that were refused.
pub const REFUSED: usize = 7;

/// The total of copies that wait in queues.
pub const WAITING: usize = 6;

/// How many mappings were made and ended, how many copies were made each way with their bytes, how many copies wait, and
/// how many statements were refused.
#[derive(Clone, Copy)]
pub struct Totals([u64; 8]);

impl Totals {
    /// Returns totals of nothing done.
    pub fn new() -> Totals {
        Totals([0; 8])
    }

    /// Adds to the total of a number.
    #[inline(always)]
    pub fn add(&mut self, nth: usize, more: u64) {
        if let Some(total) = self.0.get_mut(nth) {
            *total = total.saturating_add(more);
        }
    }

    /// Adds the mapping that a step made or ended, if it did.
    pub fn count(&mut self, step: Step) {
        match step {
            Step::Born { .. } => self.add(0, 1),
            Step::Dropped { ended: true, .. } => self.add(1, 1),
            _ => {}
        }
    }

    /// Adds a copy of `len` bytes: from the device to host memory where `out`, and else the other way.
    pub fn copied(&mut self, out: bool, len: u64) {
        let nth = if out { 4 } else { 2 };
        self.add(nth, 1);
        self.add(nth.saturating_add(1), len);
    }

    /// Puts the last line of a log.
    pub fn put(&self, page: &mut Page, form: LogForm) {
        match form {
            LogForm::Text => self.put_text(page),
            LogForm::Json => self.put_object(page),
        }
    }

    fn put_text(&self, page: &mut Page) {
        page.text(MARK);
        page.text("total");
        for ((words, _), total) in NAMES.iter().zip(&self.0) {
            page.text(words);
            page.number(*total);
        }
        page.text("\n");
    }

    fn put_object(&self, page: &mut Page) {
        page.open_object("total");
        page.null_field("line");
        for ((_, name), total) in NAMES.iter().zip(&self.0) {
            page.number_field(name, *total);
        }
        page.close_object();
    }
}
