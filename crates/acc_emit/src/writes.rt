//! Arrays, and what the host and the kernels write.

use crate::emitters::Emitter;
use crate::kernels::put_kernel;
use crate::languages::Language;
use crate::pieces::Piece;
use crate::pointers::word_at;
use crate::sheets::{Sheet, put_name};
use acc_base::Section;
use acc_read::{Array, ScriptKernel};
use acc_table::Table;
use std::alloc::Global;

/// Declares an array of the program, with its size in bytes.
pub fn declare(alloc: Global, sheet: &mut Sheet, name: &[u8], array: Array) {
    let is_kept = sheet.names.insert(alloc, name, array).is_ok();
    sheet.heed(is_kept);
    let language = sheet.language;
    let in_c = "static _Alignas(16) unsigned char ";
    let in_fortran = "    integer(1), target, save :: ";
    sheet.head.text(language.pick(in_c, in_fortran));
    put_name(&mut sheet.head, name);
    sheet.head.text(language.pick("[", "(0:"));
    sheet.head.number(language.end_of(array.whole().len));
    sheet.head.text(language.pick("];\n", ") = 0\n"));
    if language == Language::C {
        sheet.line("(void)%_;\n", "", &[Piece::Bytes(name)]);
    }
}

/// Emits a write of the host of these bytes into a section.
pub fn emit_write(emitter: &mut Emitter<'_>, own: &Table, section: Section) {
    let Emitter { marks, sheet, .. } = emitter;
    marks.write(section);
    sheet.line("memcpy(%, \"", "call put(%, \"", &[Piece::Start(section)]);
    for byte in own.host_read(section).unwrap_or(&[]) {
        sheet.pick("\\x%", "%", &[Piece::Digits(*byte)]);
    }
    sheet.pick("\", %);\n", "\")\n", &[Piece::Number(section.len)]);
}

/// Emits a write of the host address of a target into the pointer that is a section.
pub fn emit_point(emitter: &mut Emitter<'_>, own: &Table, section: Section) {
    let Emitter { marks, sheet, .. } = emitter;
    let target = word_at(own, section.start, false);
    sheet.heed(marks.point(section.start, target).is_ok());
    let pieces = [Piece::Start(section), Piece::Byte(target)];
    sheet.line("point(%, %);\n", "call point(%, c_loc(%))\n", &pieces);
}

/// Emits a kernel, and marks the bytes to which it adds bytes that are not compared.
pub fn emit_kernel(emitter: &mut Emitter<'_>, own: &Table, kernel: ScriptKernel, section: Section) {
    if let ScriptKernel::Plus(source) = kernel {
        spread_marks(emitter, own, source, section);
    }
    emitter.marks.write(section);
    put_kernel(&mut emitter.sheet, kernel, section);
}

/// Marks bytes of a section: those to which bytes of a source are added that are not compared, or that nothing filled.
fn spread_marks(emitter: &mut Emitter<'_>, own: &Table, source: Section, section: Section) {
    let Emitter { twin, marks, .. } = emitter;
    let own = own.host_read(source).unwrap_or(&[]);
    let twin = twin.table.host_read(source).unwrap_or(&[]);
    for offset in 0..source.len.min(section.len) {
        let at = offset as usize;
        if own.get(at) != twin.get(at) || marks.is_open(source.start.saturating_add(offset)) {
            let start = section.start.saturating_add(offset);
            marks.open(Section { start, len: 1 });
        }
    }
}
