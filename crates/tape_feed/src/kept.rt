// What is kept of a line so far: its first bytes. One more than the longest frame has tells that a line is longer, so that more are never kept.
ghost use Rattle.std.specs.Prelude.{◌≡◌, ◌+◌, ◌-◌, ◌≤◌, ◌<◌, List, [], ℕ, length, take, drop};
ghost use Rattle.tape_answer.specs.Feeding.{most_kept, longer, bytes_taken, Feeds};
ghost use Rattle.tape_answer.specs.Line.{most_answer};

use std::marker::Model;
use tape_answer::{Fed, MOST_KEPT};

#[derive(Drop)]
pub struct KeptLine {
    bytes: [u8; MOST_KEPT],
    len: usize,
}

impl Model for KeptLine {
    ghost Value = { List ℕ };

    ghost view = { λ k. take k.len k.bytes };

    ghost invariant = { λ k. k.len ≤ most_kept };
}

impl KeptLine {
    pub fn new() -> Self
        ensures { result ≡ [] }
    {
        KeptLine {
            bytes: [0; MOST_KEPT],
            len: 0,
        }
    }

    pub fn bytes(&self) -> &[u8]
        ensures { result.now ≡ self.now }
    {
        &self.bytes[..self.len]
    }

    pub fn clear(&mut self)
        ensures { self.new ≡ [] }
    {
        self.len = 0;
    }

    // A byte more, where there is room.
    pub fn push(&mut self, b: u8)
        ensures { self.new ≡ longer self.old b }
    {
        self.len = crate::keep(&mut self.bytes, self.len, b);
    }

    // A piece of the tape from a place on, as the function `feed` takes it, with this line.
    pub fn feed(&mut self, piece: &[u8], from: usize, out: &mut [u8], m: usize) -> Fed
        requires { (from < length piece.now) × (m + most_answer ≤ length out.old) }
        ensures feeds { Feeds (bytes_taken (length out.old - m) self.old (drop from piece.now)) from
            self.old out.old m result.at self.new out.new result.written }
        ensures from_lt_at { (from < result.at) × (result.at ≤ length piece.now) × (result.kept ≤ most_kept) × (result.written ≤ length out.old) }
        ensures kept_len { result.kept ≡ length self.new }
        ensures out_len_bound { result.at < length piece.now → length out.old < result.written + most_answer }
    {
        let fed = crate::feed(piece, from, &mut self.bytes, self.len, out, m);
        self.len = fed.kept;
        fed
    }
}
