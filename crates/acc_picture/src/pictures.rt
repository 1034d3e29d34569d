//! The whole picture.

use crate::arrows::put_arrows;
use crate::bars::{put_device_bar, put_host_bar};
use crate::device_pictures::DevicePicture;
use crate::gathering::Part;
use crate::host_rows::host_row;
use crate::links::{put_kept, put_links};
use crate::lists::List;
use crate::marks::put_strips;
use crate::places::{
    ATTACHED, DEVICE_ADDRESS, DEVICE_BYTES, DEVICE_X, DYNAMIC, HOST_ADDRESS, HOST_BYTES, HOST_X,
    MARGIN, NAME, ROWS_Y, STRUCTURED, WIDTH, group_size,
};
use crate::queues::put_queues;
use crate::shapes::{
    Area, Point, close_group, close_text, close_title, open_text, put_box, put_text,
};
use crate::styles::STYLE;
use acc_read::{Names, Page};
use acc_stale::Known;
use acc_table::Table;
use std::alloc::{AllocError, Global};

/// When the picture was made.
#[derive(Clone, Copy)]
pub enum Caption<'a> {
    /// At the end of the script.
    End,
    /// Behind the line of a number, with its statement.
    Line {
        /// The line's number in the script, from 1.
        number: u64,
        /// The statement.
        text: &'a [u8],
    },
}

/// How many letters of a statement are shown at most.
const STATEMENT_LIMIT: usize = 72;

/// Puts the picture of host memory and of the devices of a table: that of each device stands below the one before. Where
/// it is known which bytes are behind or unfilled, these are marked.
///
/// # Errors
///
/// [`AllocError`] where there is no memory; the page itself says whether it lacked some.
pub fn put_picture(
    page: &mut Page,
    alloc: Global,
    table: &Table,
    names: &Names,
    known: Option<&Known>,
    caption: Caption<'_>,
) -> Result<(), AllocError> {
    let mut scenes = List::new(alloc);
    for device in 0..table.config().devices() {
        add_scene(
            &mut scenes,
            DevicePicture::new(alloc, table, names, known, device),
        );
    }
    if scenes.wants {
        return Err(AllocError);
    }
    put_scenes(page, alloc, table, names, caption, &scenes.all);
    Ok(())
}

fn add_scene(scenes: &mut List<DevicePicture>, scene: DevicePicture) {
    scenes.wants |= scene.wants();
    scenes.add(scene);
}

fn put_scenes(
    page: &mut Page,
    alloc: Global,
    table: &Table,
    names: &Names,
    caption: Caption<'_>,
    scenes: &[DevicePicture],
) {
    let mut height = 0;
    for scene in scenes {
        height = u64::saturating_add(height, scene.height());
    }
    open_picture(page, height, caption);
    let mut y = 0;
    for scene in scenes {
        open_scene(page, y);
        put_scene(page, alloc, table, names, caption, scene);
        close_scene(page, y);
        y = u64::saturating_add(y, scene.height());
    }
    page.text("</svg>\n");
}

fn put_scene(
    page: &mut Page,
    alloc: Global,
    table: &Table,
    names: &Names,
    caption: Caption<'_>,
    scene: &DevicePicture,
) {
    put_head(page, table, scene.device, caption);
    put_bars(page, table, scene);
    put_heads(page, HOST_X, &HOST_HEADS);
    put_heads(page, DEVICE_X, &DEVICE_HEADS);
    put_host_rows(page, alloc, names, scene);
    put_device_rows(page, alloc, names, scene);
    if scene.is_known {
        put_strips(page, scene.device, &scene.strips.all);
    }
    put_kept(page, scene);
    put_queues(page, alloc, names, &scene.queues.all, scene.foot());
    put_arrows(page, table, names, scene);
}

fn put_device_rows(page: &mut Page, alloc: Global, names: &Names, scene: &DevicePicture) {
    for (nth, row) in scene.rows.all.iter().enumerate() {
        row.put(page, alloc, names, nth);
    }
}

/// All that follows stands so far lower.
fn open_scene(page: &mut Page, y: u64) {
    if y > 0 {
        page.text("<g transform=\"translate(0 ");
        page.number(y);
        page.text(")\">\n");
    }
}

fn close_scene(page: &mut Page, y: u64) {
    if y > 0 {
        close_group(page);
    }
}

fn open_picture(page: &mut Page, height: u64, caption: Caption<'_>) {
    page.text("<svg xmlns=\"http://www.w3.org/2000/svg\" role=\"img\" width=\"");
    page.number(WIDTH);
    page.text("\" height=\"");
    page.number(height);
    page.text("\" viewBox=\"0 0 ");
    page.number(WIDTH);
    page.text(" ");
    page.number(height);
    page.text("\">\n<title>Host memory and device memory. ");
    put_caption(page, caption);
    close_title(page);
    page.text(STYLE);
    let (x, y, width) = (0, 0, WIDTH);
    put_box(
        page,
        "background",
        Area {
            x,
            y,
            width,
            height,
        },
    );
}

fn put_head(page: &mut Page, table: &Table, device: u64, caption: Caption<'_>) {
    open_text(page, "title", Point { x: MARGIN, y: 22 });
    put_device(page, table, device);
    put_caption(page, caption);
    close_text(page);
    open_text(page, "number", Point { x: MARGIN, y: 40 });
    put_sums(page, table, device);
    close_text(page);
}

fn put_device(page: &mut Page, table: &Table, device: u64) {
    if table.config().devices() > 1 {
        page.text("Device ");
        page.number(device);
        page.text(". ");
    }
}

fn put_caption(page: &mut Page, caption: Caption<'_>) {
    match caption {
        Caption::End => page.text("At the end of the script"),
        Caption::Line { number, text } => {
            page.text("After line ");
            page.number(number);
            page.text(": ");
            page.bytes(text.get(..STATEMENT_LIMIT).unwrap_or(text));
            if text.len() > STATEMENT_LIMIT {
                page.text("..");
            }
        }
    }
}

fn put_sums(page: &mut Page, table: &Table, device: u64) {
    page.text("device bytes used ");
    page.number(table.used(device));
    page.text(", open regions ");
    page.number(table.regions());
    page.text(", events ");
    page.number(table.events());
}

fn put_bars(page: &mut Page, table: &Table, scene: &DevicePicture) {
    let config = table.config();
    put_host_bar(page, 50, config.host(), &scene.parts.all);
    put_device_bar(
        page,
        72,
        config.device(),
        scene.device,
        &scene.stretches.all,
    );
}

/// The heads of the columns of host memory, and how far they stand from the left edge of its rows.
const HOST_HEADS: [(&str, u64); 5] = [
    ("host memory", NAME),
    ("address", HOST_ADDRESS),
    ("bytes", HOST_BYTES),
    ("structured", STRUCTURED),
    ("dynamic", DYNAMIC),
];

/// The heads of the columns of the device, and how far they stand from the left edge of its rows.
const DEVICE_HEADS: [(&str, u64); 4] = [
    ("device memory", NAME),
    ("address", DEVICE_ADDRESS),
    ("bytes", DEVICE_BYTES),
    ("attached", ATTACHED),
];

fn put_heads(page: &mut Page, x: u64, heads: &[(&str, u64)]) {
    let y = ROWS_Y.saturating_sub(8);
    for (head, column) in heads {
        let x = x.saturating_add(*column);
        put_text(page, "name", Point { x, y }, head);
    }
}

fn put_host_rows(page: &mut Page, alloc: Global, names: &Names, scene: &DevicePicture) {
    let parts = &scene.parts.all;
    for (nth, group) in parts.chunks(group_size(parts.len())).enumerate() {
        put_host_row(page, alloc, names, scene, group, nth);
    }
}

fn put_host_row(
    page: &mut Page,
    alloc: Global,
    names: &Names,
    scene: &DevicePicture,
    group: &[Part],
    nth: usize,
) {
    put_links(page, scene, group, nth);
    if let Some(row) = host_row(group) {
        row.put(page, alloc, names, nth);
    }
}
