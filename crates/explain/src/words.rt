// A line of text in the making. It is written with at most COLUMNS columns, and nothing that is put into it is cut: what has no room behind the rest
// begins the next line. That its place is never past COLUMNS, which is 100, stands in the type.
ghost use Rattle.std.specs.Prelude.{◌≡◌, ◌+◌, ◌≤◌, length};

use std::io::{Stdout, Write};

pub const COLUMNS: usize = 100;

// One more, for what ends the line.
const ROOM: usize = COLUMNS + 1;

// Where a line begins that goes on with the one before, and where it does in the column of reasons.
const MARGIN: usize = 4;

const REASON: usize = 55;

// What a number or a position takes in a list, at most: a blank and ten digits.
const ENTRY: usize = 11;

// Where it is written, its bytes, the place up to which they stand, and whether a line could not be written. That is kept and told at the end
// (`is_lost`): with a Result of each call, forty functions that put words would hand on an error that none of them looks at.
#[derive(Drop)]
pub struct Line {
    out: Stdout,
    text: [u8; ROOM],
    at: usize,
    lost: bool,
    ghost within: { at ≤ 100 },
}

impl Line {
    ghost use Rattle.explain_line.specs.Words.{EndsIn};

    pub(crate) fn new(out: Stdout) -> Self {
        Line {
            out,
            text: [0; ROOM],
            at: 0,
            lost: false,
        }
    }

    // The line is written, and the next one begins at its first column. Behind a line that could not be written none is.
    pub(crate) fn end(&mut self)
        ensures { self.new.at ≡ 0 }
    {
        self.text[self.at] = b'\n';
        if !self.lost {
            self.lost = self.out.write_all(&self.text[..self.at + 1]).is_err();
        }
        self.at = 0;
    }

    // Whether a line could not be written.
    pub(crate) fn is_lost(&self) -> bool {
        self.lost
    }

    // A column is a number at most COLUMNS; a type for that would be made anew of each constant.
    fn blanks(&mut self, column: usize)
        requires on { self.old.at ≤ column }
        requires within { column ≤ 100 }
        ensures { self.new.at ≡ column }
    {
        self.text[self.at..column].fill(b' ');
        self.at = column;
    }

    // Room for so many bytes: here, or, where there is none, in the next line from a margin on.
    fn make_room(&mut self, margin: usize, size: usize)
        requires { margin + size ≤ 100 }
        ensures { self.new.at + size ≤ 100 }
    {
        if COLUMNS - self.at < size {
            self.end();
            self.blanks(margin);
        }
    }

    // The whole of the words, here or in the next line.
    fn put(&mut self, margin: usize, words: &[u8])
        requires { margin + length words.now ≤ 100 }
        ensures { EndsIn self.new.text self.new.at words.now }
    {
        self.make_room(margin, words.len());
        self.at = explain_line::put(&mut self.text, self.at, words);
    }

    pub(crate) fn say(&mut self, words: &[u8])
        requires { length words.now ≤ 96 }
        ensures { EndsIn self.new.text self.new.at words.now }
    {
        self.put(MARGIN, words);
    }

    // The words, where they hold.
    pub(crate) fn say_if(&mut self, holds: bool, words: &[u8])
        requires { length words.now ≤ 96 }
    {
        if holds {
            self.say(words);
        }
    }

    // A part of a reason, which may begin with a blank.
    pub(crate) fn reason(&mut self, words: &[u8])
        requires { length words.now ≤ 45 }
        ensures { EndsIn self.new.text self.new.at words.now }
    {
        self.put(REASON, words);
    }

    pub(crate) fn number(&mut self, n: u64) {
        let mut digits = [0u8; 20];
        let k = io::decimal(n, &mut digits);
        self.put(MARGIN, &digits[..k]);
    }

    // Eight hexadecimal digits.
    pub(crate) fn word(&mut self, n: u32) {
        let mut digits = [0u8; 16];
        let k = io::hex(n as u64, 8, &mut digits);
        self.put(MARGIN, &digits[..k]);
    }

    // Blanks up to a column; none where it is passed.
    pub(crate) fn pad(&mut self, column: usize)
        requires { column ≤ 100 }
    {
        if self.at < column {
            self.blanks(column);
        }
    }

    // A number whose last digit stands before a column, or further on where it has too many digits.
    pub(crate) fn right(&mut self, column: usize, n: u64)
        requires { column ≤ 100 }
    {
        let mut digits = [0u8; 20];
        let k = io::decimal(n, &mut digits);
        self.pad(column.saturating_sub(k));
        self.put(MARGIN, &digits[..k]);
    }

    // Where there is no room for one more entry of a list, it goes on in a new line.
    pub(crate) fn room(&mut self) {
        self.make_room(MARGIN, ENTRY);
    }
}
