//! Scripts that are made from a seed.

use acc_follow::Views;
use acc_trials::Chance;
use std::alloc::{AllocError, Global};

/// What a script is made of.
#[derive(Clone, Copy)]
pub struct Script {
    /// How many arrays it declares.
    pub declared: u64,
    /// How many of them it maps. It ends their mappings.
    pub mapped: u64,
    /// What comes between the mappings and their ends.
    pub body: Body,
    /// How often the body comes.
    pub times: u64,
    /// The lines behind the body.
    pub behind: &'static str,
    /// The last line.
    pub last: &'static str,
    /// What is shown of it.
    pub views: Views,
}

/// What comes between the mappings of a script and their ends.
#[derive(Clone, Copy)]
pub enum Body {
    /// A statement, and a report once in so many; none where that is 0.
    Statement(u64),
    /// Data regions that are nested so deep, with an update and a kernel in each.
    Nest(u64),
    /// A line that is refused: its section is only partly present, or absent.
    Refused,
}

/// A script to which lines are added, and the numbers by chance for them.
#[derive(Drop)]
struct Text {
    text: String,
    chance: Chance,
    // Memory was refused for some of the text.
    is_short: bool,
}

/// One array in so many is filled and shown.
const SHOWN: u64 = 32;

/// The text of a script.
pub fn text_of(alloc: Global, seed: u64, script: Script) -> Result<String, AllocError> {
    let mut text = Text {
        text: String::new(alloc),
        chance: Chance::new(seed),
        is_short: false,
    };
    text.put_script(script);
    if text.is_short {
        return Err(AllocError);
    }
    Ok(text.text)
}

impl Text {
    fn below(&mut self, bound: u64) -> u64 {
        self.chance.number() % bound.max(1)
    }

    /// Adds text as it is.
    fn push(&mut self, text: &str) {
        let added = self.text.push_str(text);
        self.is_short |= added.is_err();
    }

    /// Adds pieces of text, each with the number behind it, and the last piece.
    fn put(&mut self, pieces: &[(&str, u64)], last: &str) {
        for (piece, number) in pieces {
            self.push(piece);
            self.put_number(*number);
        }
        self.push(last);
    }

    fn put_number(&mut self, number: u64) {
        let added = write!(self.text, "{number}");
        self.is_short |= added.is_err();
    }

    /// Adds so many times eight bytes by chance, as hexadecimal digits.
    fn put_bytes(&mut self, times: u64) {
        for _ in 0..times {
            let number = self.chance.number();
            let added = write!(self.text, "{number:016x}");
            self.is_short |= added.is_err();
        }
    }

    fn put_script(&mut self, script: Script) {
        self.put_arrays(script.declared);
        for four in 0..script.mapped.div_ceil(4) {
            self.map(four.wrapping_mul(4));
        }
        for line in 0..script.times {
            match script.body {
                Body::Statement(each) => self.put_statement(script.mapped, line, each),
                Body::Nest(depth) => self.put_nest(depth),
                Body::Refused => self.put_refused(script.mapped),
            }
        }
        self.push(script.behind);
        for nth in 0..script.mapped {
            self.end(nth);
        }
        self.push(script.last);
    }

    /// Declares arrays of 64 bytes, `a0` and so on. The host writes 16 bytes into one in 32 of them.
    fn put_arrays(&mut self, count: u64) {
        for nth in 0..count {
            self.put(&[("array a", nth)], " 64\n");
        }
        for part in 0..count.div_ceil(SHOWN) {
            self.put(&[("write a", part.wrapping_mul(SHOWN))], "[8] ");
            self.put_bytes(2);
            self.push("\n");
        }
    }

    /// Maps four arrays.
    fn map(&mut self, nth: u64) {
        let (b, c, d) = (
            nth.wrapping_add(1),
            nth.wrapping_add(2),
            nth.wrapping_add(3),
        );
        let pieces = [
            ("enter data copyin(a", nth),
            (", a", b),
            (") create(a", c),
            (", a", d),
        ];
        self.put(&pieces, ")\n");
    }

    /// Ends the mapping of an array. One in 32 of them is shown on both sides.
    fn end(&mut self, nth: u64) {
        if nth % SHOWN == 0 {
            let pieces = [
                ("peek a", nth),
                ("\nexit data copyout(a", nth),
                (")\nshow a", nth),
            ];
            self.put(&pieces, "\n");
        } else {
            self.put(&[("exit data copyout(a", nth)], ")\n");
        }
    }

    /// A statement of any kind over so many arrays, and a report once in `each` lines.
    fn put_statement(&mut self, arrays: u64, line: u64, each: u64) {
        match self.below(10) {
            0 | 1 => self.put_write(arrays),
            2 => self.put_pointer(arrays),
            3 => self.push("# a comment, and a blank line\n\n"),
            _ => self.put_directive(arrays),
        }
        if each != 0 && line % each == 0 {
            self.push("wait(3)\nreport\n");
        }
    }

    /// A write of 32 or 64 bytes. One array in eight is then shown on both sides.
    fn put_write(&mut self, arrays: u64) {
        let nth = self.below(arrays);
        self.put(&[("write a", nth)], "[0] ");
        self.put_bytes(if nth % 2 == 0 { 8 } else { 4 });
        if nth % 8 == 0 {
            self.put(&[("\nshow a", nth), ("\npeek a", nth)], "\n");
        } else {
            self.push("\n");
        }
    }

    /// An array gets a pointer to another, which is attached, copied back and detached.
    fn put_pointer(&mut self, arrays: u64) {
        let nth = self.below(arrays);
        let other = self.below(arrays);
        let place = self.below(8).wrapping_mul(8);
        let pieces = [
            ("point a", nth),
            ("[", place),
            ("] to a", other),
            ("[0]\nenter data attach(a", nth),
            ("[", place),
            ("])\nupdate self(a", nth),
            (")\nexit data detach(a", nth),
            ("[", place),
        ];
        self.put(&pieces, "])\n");
    }

    /// One to three lines that name one or two arrays, or a step of a queue.
    fn put_directive(&mut self, arrays: u64) {
        let (one, other) = (self.below(arrays), self.below(arrays));
        match self.below(8) {
            0 => self.put(&[("enter data copyin(a", one)], ")\n"),
            1 => self.put(
                &[
                    ("exit data delete(a", one),
                    (") finalize\nenter data copyin(a", one),
                ],
                ")\n",
            ),
            2 => self.put(
                &[("update self(a", one), ("[8:16]) device(a", other)],
                ")\n",
            ),
            3 => self.put(
                &[("data copy(a", one), (") present(a", other)],
                ")\nend data\n",
            ),
            4 => self.put(&[("update device(a", one)], ") async(3)\n"),
            5 => self.put(
                &[("data copy(a", one), (")\nkernel add 7 a", one)],
                "\nend data\n",
            ),
            6 => self.put(&[("present a", one), ("[4:8]\naddress a", other)], "[3]\n"),
            _ => self.push("step(3)\n"),
        }
    }

    /// Data regions that are nested so deep, with an update and a kernel in each.
    fn put_nest(&mut self, depth: u64) {
        for _ in 0..depth {
            let nth = self.below(64);
            let pieces = [
                ("data copyin(a", nth),
                ("[0:32]) create(a", nth),
                ("[0:16])\nkernel number 5 a", nth),
                ("[0:8]\nupdate self(a", nth),
            ];
            self.put(&pieces, "[0:8])\n");
        }
        let nth = self.below(8).wrapping_mul(8);
        self.put(&[("peek a", nth), ("[0:32]\nshow a", nth)], "\n");
        for _ in 0..depth {
            self.push("end data\n");
        }
    }

    /// A line that is refused: its section is only partly present, or absent.
    fn put_refused(&mut self, mapped: u64) {
        let nth = self.below(mapped);
        match self.below(3) {
            0 => self.put(&[("enter data copyin(a", nth)], "[32:64])\n"),
            1 => self.put(&[("update self(a", nth.wrapping_add(mapped))], ")\n"),
            _ => self.put(&[("exit data copyout(a", nth)], "[60:80])\n"),
        }
    }
}
