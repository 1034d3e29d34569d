//! The shapes of SVG that a picture is made of. Lengths are pixels.

use acc_read::Page;

/// Where a box lies, and how large it is.
#[derive(Clone, Copy)]
pub struct Area {
    /// The left edge.
    pub x: u64,
    /// The upper edge.
    pub y: u64,
    /// How wide it is, in pixels.
    pub width: u64,
    /// How high it is, in pixels.
    pub height: u64,
}

/// A place in the picture, in pixels.
#[derive(Clone, Copy)]
pub struct Point {
    /// How far from the left.
    pub x: u64,
    /// How far from the top.
    pub y: u64,
}

fn put_attribute(page: &mut Page, name: &str, value: u64) {
    page.text(" ");
    page.text(name);
    page.text("=\"");
    page.number(value);
    page.text("\"");
}

fn put_element(page: &mut Page, name: &str, class: &str) {
    page.text("<");
    page.text(name);
    page.text(" class=\"");
    page.text(class);
    page.text("\"");
}

/// Puts a box of a class of style.
pub fn put_box(page: &mut Page, class: &str, area: Area) {
    put_element(page, "rect", class);
    put_attribute(page, "x", area.x);
    put_attribute(page, "y", area.y);
    put_attribute(page, "width", area.width);
    put_attribute(page, "height", area.height);
    page.text("/>\n");
}

/// Begins a text of a class of style, whose first letter stands at a point; [`close_text`] ends it.
pub fn open_text(page: &mut Page, class: &str, point: Point) {
    put_element(page, "text", class);
    put_attribute(page, "x", point.x);
    put_attribute(page, "y", point.y);
    page.text(">");
}

/// Ends the text that was begun.
pub fn close_text(page: &mut Page) {
    page.text("</text>\n");
}

/// Puts a whole text of a class of style.
pub fn put_text(page: &mut Page, class: &str, point: Point, text: &str) {
    open_text(page, class, point);
    page.text(text);
    close_text(page);
}

/// Puts a number as a text.
pub fn put_number(page: &mut Page, point: Point, number: u64) {
    open_text(page, "number", point);
    page.number(number);
    close_text(page);
}

/// Puts an address as a text: `0x` and hexadecimal digits.
pub fn put_address(page: &mut Page, point: Point, address: u64) {
    open_text(page, "number", point);
    page.address(address);
    close_text(page);
}

/// Puts a curve between two points, with its middle drawn out to `x`.
pub fn put_curve(page: &mut Page, class: &str, from: Point, to: Point, x: u64) {
    put_element(page, "path", class);
    page.text(" d=\"M");
    put_point(page, from);
    page.text(" C");
    put_point(page, Point { x, y: from.y });
    put_point(page, Point { x, y: to.y });
    put_point(page, to);
    page.text("\"/>\n");
}

fn put_point(page: &mut Page, point: Point) {
    page.text(" ");
    page.number(point.x);
    page.text(" ");
    page.number(point.y);
}

/// Begins a group of shapes, and the title that a browser shows over it.
pub fn open_titled(page: &mut Page) {
    page.text("<g><title>");
}

/// Ends the title; the shapes of the group follow.
pub fn close_title(page: &mut Page) {
    page.text("</title>\n");
}

/// Ends the group.
pub fn close_group(page: &mut Page) {
    page.text("</g>\n");
}
