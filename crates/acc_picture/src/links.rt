//! Lines between the rows of host memory and of the device, from bytes of the host to their block.

use crate::device_pictures::DevicePicture;
use crate::gathering::{Part, Stretch, StretchKind};
use crate::places::{DEVICE_X, HOST_END, group_size, last_from, middle_of};
use crate::shapes::{close_group, close_title, open_titled, put_curve};
use acc_read::Page;

/// Puts a line from the host's row of a number to each row that has a block of one of its parts. Neighbours of one row
/// whose blocks lie side by side in one row share a line.
pub fn put_links(page: &mut Page, scene: &DevicePicture, parts: &[Part], nth: usize) {
    let mut last = None;
    let mut count = 0;
    for part in parts {
        let to = match part.mapped {
            Some(mapped) => last_from(&scene.rows.all, mapped.place),
            None => None,
        };
        if to != last {
            put_link(page, nth, last, count);
            last = to;
            count = 0;
        }
        count = u64::saturating_add(count, 1);
    }
    put_link(page, nth, last, count);
}

fn put_link(page: &mut Page, nth: usize, to: Option<usize>, count: u64) {
    let Some(to) = to else {
        return;
    };
    open_titled(page);
    page.number(count);
    page.text(if count == 1 { " mapping" } else { " mappings" });
    close_title(page);
    put_between(page, "link", nth, to);
    close_group(page);
}

fn put_between(page: &mut Page, class: &str, nth: usize, to: usize) {
    let from = middle_of(nth, HOST_END);
    let end = middle_of(to, DEVICE_X);
    put_curve(page, class, from, end, HOST_END.midpoint(DEVICE_X));
}

/// Puts a line to each block whose mapping has ended, from the host bytes that were mapped to it.
pub fn put_kept(page: &mut Page, scene: &DevicePicture) {
    for stretch in &scene.stretches.all {
        if matches!(stretch.kind, StretchKind::Ended(_)) {
            put_kept_line(page, scene, *stretch);
        }
    }
}

fn put_kept_line(page: &mut Page, scene: &DevicePicture, stretch: Stretch) {
    let (Some(section), Some(to)) = (stretch.section, last_from(&scene.rows.all, stretch.place))
    else {
        return;
    };
    if let Some(nth) = last_from(&scene.parts.all, section.start) {
        put_between(page, "kept", nth / group_size(scene.parts.all.len()), to);
    }
}
