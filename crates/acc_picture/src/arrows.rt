//! Arrows from blocks to what the attached pointers in them are aimed at.

use crate::device_pictures::DevicePicture;
use crate::places::{DEVICE_END, WIDTH, last_from, middle_of};
use crate::shapes::{Point, close_group, close_title, open_titled, put_curve};
use acc_base::{Attachment, Section};
use acc_read::{Names, Page};
use acc_table::Table;

/// An attached pointer in the block of one row, whose target lies in one row.
#[derive(Clone, Copy)]
struct Arrow {
    from: usize,
    to: usize,
    attached: Attachment,
    /// What the pointer holds on the device.
    target: u64,
}

/// Puts the arrows of all attached pointers of a device (OpenACC 3.3, section 2.6.8). Neighbours that go from one row
/// to one row share an arrow. What the pointers of a lent block hold is not known.
pub fn put_arrows(page: &mut Page, table: &Table, names: &Names, scene: &DevicePicture) {
    let (mut from, mut to) = (usize::MAX, usize::MAX);
    for attached in &scene.attached.all {
        if let Some(arrow) = arrow_of(table, scene, *attached) {
            if arrow.from != from || arrow.to != to {
                put_arrow(page, names, arrow);
            }
            from = arrow.from;
            to = arrow.to;
        }
    }
}

fn arrow_of(table: &Table, scene: &DevicePicture, attached: Attachment) -> Option<Arrow> {
    let place = table.device_address(scene.device, attached.pointer)?;
    let target = target_of(table, scene.device, attached.pointer)?;
    Some(Arrow {
        from: last_from(&scene.rows.all, place)?,
        to: last_from(&scene.rows.all, target)?,
        attached,
        target,
    })
}

/// The device address that a pointer's eight bytes hold on a device.
fn target_of(table: &Table, device: u64, pointer: u64) -> Option<u64> {
    let section = Section {
        start: pointer,
        len: 8,
    };
    let bytes = table.device_read(device, section)?.first_chunk::<8>()?;
    Some(u64::from_le_bytes(*bytes))
}

/// The farther an arrow reaches, the farther it stands out to the right.
fn put_arrow(page: &mut Page, names: &Names, arrow: Arrow) {
    open_titled(page);
    put_title(page, names, arrow);
    close_title(page);
    let start = middle_of(arrow.from, DEVICE_END);
    let end = middle_of(arrow.to, DEVICE_END);
    let from = Point {
        x: start.x,
        y: start.y.saturating_add(4),
    };
    let to = Point {
        x: end.x.saturating_add(6),
        y: end.y.saturating_sub(4),
    };
    let reach = from.y.abs_diff(to.y) / 4;
    let farthest = WIDTH.saturating_sub(DEVICE_END);
    let x = DEVICE_END.saturating_add(reach.clamp(24, farthest));
    put_curve(page, "arrow", from, to, x);
    close_group(page);
}

fn put_title(page: &mut Page, names: &Names, arrow: Arrow) {
    page.text("pointer ");
    let pointer = arrow.attached.pointer;
    if let Some(spot) = names.spot(pointer) {
        spot.put_byte(page);
        page.text(" ");
    }
    page.text("at ");
    page.address(pointer);
    page.text(" with counter ");
    page.number(arrow.attached.count);
    page.text(" is aimed at ");
    page.address(arrow.target);
}
