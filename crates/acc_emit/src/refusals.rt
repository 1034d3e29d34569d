//! The statement that is refused, as the last one of a program.

use crate::doing::emit_items;
use crate::emitters::Emitter;
use crate::faults::Reason;
use crate::kernels::put_kernel;
use crate::pieces::Piece;
use acc_base::Fault;
use acc_read::Statement;
use acc_table::Table;

/// The choice of a device that is so many behind the last.
const ABSENT_DEVICE: &str =
    "acc_set_device_num(acc_get_num_devices(acc_get_device_type()) + %, acc_get_device_type())";

/// Emits a statement that is refused, as the last one of the program. The command line has to ask for that, and OpenACC
/// has to have the refusal too.
pub fn emit_refused(
    emitter: &mut Emitter<'_>,
    own: &Table,
    statement: &Statement<'_>,
    fault: Fault,
) {
    if !emitter.origin.until_refusal {
        emitter.sheet.unfit(Reason::Refused);
    } else if !is_of_openacc(fault) {
        emitter.sheet.unfit(Reason::Limit);
    }
    emitter.sheet.call("expect_failure()", &[]);
    put_refused(emitter, own, statement);
    let line = emitter.sheet.line;
    emitter.sheet.call("no_failure(%)", &[Piece::Number(line)]);
    let Emitter { regions, sheet, .. } = emitter;
    for region in regions.iter().rev() {
        region.close_blocks(sheet);
    }
}

/// Whether a refusal is an error of OpenACC (OpenACC 3.3, sections 2.7 and 2.14.3). The others come from limits of the
/// table.
fn is_of_openacc(fault: Fault) -> bool {
    matches!(
        fault,
        Fault::PartlyPresent { .. } | Fault::NotPresent { .. } | Fault::NoDevice { .. }
    )
}

/// Puts the statement that is refused. Where it starts a region, it opens the blocks of that too.
fn put_refused(emitter: &mut Emitter<'_>, own: &Table, statement: &Statement<'_>) {
    match statement {
        Statement::Direct(directive) => {
            if !emit_items(emitter, own, directive, &[]) {
                emitter.sheet.unfit(Reason::Limit);
            }
        }
        Statement::Kernel {
            kernel,
            section,
            ..
        } => put_kernel(&mut emitter.sheet, *kernel, *section),
        Statement::Select(device) => {
            // A device that is not there on any machine (OpenACC 3.3, section 3.2.4): so many behind the first such.
            let behind = Piece::Number(device.saturating_sub(own.config().devices()));
            emitter.sheet.call(ABSENT_DEVICE, &[behind]);
        }
        _ => emitter.sheet.unfit(Reason::Limit),
    }
}
