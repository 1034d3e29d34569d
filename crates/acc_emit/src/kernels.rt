//! Kernels as parallel loops.

use crate::languages::Language;
use crate::pieces::Piece;
use crate::sheets::Sheet;
use acc_base::Section;
use acc_read::ScriptKernel;

/// Puts a kernel over a section as a loop that runs in parallel (OpenACC 3.3, sections 2.5.1 and 2.9).
pub fn put_kernel(sheet: &mut Sheet, kernel: ScriptKernel, section: Section) {
    let ScriptKernel::Plus(source) = kernel else {
        return put_loop(sheet, kernel, section, section.len);
    };
    let len = source.len.min(section.len);
    if len == 0 {
        return put_loop(sheet, ScriptKernel::Xor(0), section, section.len);
    }
    put_source(sheet, Section { len, ..source });
    put_loop(sheet, kernel, section, len);
}

/// Puts a copy of a source in host memory, so that its bytes count and not the device's.
fn put_source(sheet: &mut Sheet, source: Section) {
    sheet.need(source.len);
    sheet.line("memcpy(bytes, ", "bytes(0:%) = ", &[Piece::End(source.len)]);
    sheet.pick("%);\n", "%\n", &[Piece::Argument(source)]);
}

/// Puts the loop over the first `count` bytes of a section.
fn put_loop(sheet: &mut Sheet, kernel: ScriptKernel, section: Section, count: u64) {
    let end = [Piece::End(count)];
    let part = [Piece::Part(section)];
    sheet.line(
        "#pragma acc parallel loop present(%)",
        "!$acc parallel loop present(%)",
        &part,
    );
    if let ScriptKernel::Plus(_) = kernel {
        sheet.pick(" copyin(bytes[0:%])", " copyin(bytes(0:%))", &end);
    }
    sheet.put("\n", &[]);
    sheet.line("for (int i = 0; i < %; i++)\n", "do i = 0, %\n", &end);
    put_change(sheet, kernel, Piece::Cell(section));
    if sheet.language == Language::Fortran {
        sheet.line("", "end do\n", &[]);
    }
}

/// Puts what a cell gets: the lowest byte of a number.
fn put_change(sheet: &mut Sheet, kernel: ScriptKernel, cell: Piece<'_>) {
    let (of_xor, xor) = (
        "    % = (unsigned char)(% ^ %);\n",
        "    % = BYTE(ieor(int(%), %))\n",
    );
    let (in_c, in_fortran) = ("    % = (unsigned char)(% + %);\n", "    % = BYTE(% + %)\n");
    let place = Piece::Text("i");
    let byte = Piece::Text(sheet.language.pick("bytes[i]", "int(bytes(i))"));
    match kernel {
        ScriptKernel::Xor(by) => sheet.line(of_xor, xor, &[cell, cell, number_of(by)]),
        ScriptKernel::Add(by) => sheet.line(in_c, in_fortran, &[cell, cell, number_of(by)]),
        ScriptKernel::Number(by) => sheet.line(in_c, in_fortran, &[cell, place, number_of(by)]),
        ScriptKernel::Plus(_) => sheet.line(in_c, in_fortran, &[cell, cell, byte]),
    }
}

fn number_of(by: u8) -> Piece<'static> {
    Piece::Number(by as u64)
}
