// A line's call on the pool: the letter and the numbers that follow it choose it, so a `match`: no caller has a function to hand in.

#![tactic(auto)]

ghost use Rattle.std.specs.Prelude.{◌≡◌};
ghost use Rattle.tables.specs.Pool.{pool_of};
ghost use Rattle.tables.specs.Lent.{pool_in};

mod objects;

use lines::Line;
use lookup::Store;
pub use objects::Objects;
use outcome::{Refusal, Reply};
use tables::View;

// How many frames a pool of a trace has at most.
pub const MAX_FRAMES: u64 = 64;

// How many notices the lent list takes at most.
pub const MAX_ROOM: u64 = 4096;

// The pool, the list of notices, and the bytes that a read or a write is lent.
#[derive(Drop)]
pub struct Lent<'a> {
    pub objects: Objects<'a>,
    pub store: Store<'a>,
    pub notices: &'a mut [u32],
    pub buf: &'a mut [u8],
}

impl Lent<'_> {
    // None where no call has the letter and such numbers.
    pub fn call(&mut self, line: &Line) -> Option<Reply> {
        let reply = match (line.letter, line.numbers()) {
            (b's', &[1..=MAX_FRAMES]) => Reply::of(self.objects.start(&mut self.store)),
            (b's', &[_]) => Reply::refused(Refusal::BadPool),
            (b'a', &[0..=MAX_ROOM]) => Reply::of(Ok(0)),
            (b'a', &[_]) => Reply::refused(Refusal::InvalidArgs),
            (b'n', &[size]) => Reply::of(self.objects.new(&self.store, size)),
            (b'l', &[object]) => Reply::of(pool::len(self.view(), object)),
            (b'm', &[object, first, pages]) => {
                Reply::of(self.objects.map(&self.store, object, first, pages))
            }
            (b'u', &[object, mapping]) => Reply::of(
                self.objects.unmap(&self.store, object, mapping),
            ),
            (b'k', &[object, first, pages]) => self.child(object, in_bytes(first), in_bytes(pages)),
            (b'K', &[object, offset, len]) => self.child(object, offset, len),
            (b'f', &[object, offset, len]) => {
                Reply::of(forecast::forecast(self.view(), object, offset, len))
            }
            (b'c', &[object, offset, len]) => self.commit(object, offset, len),
            (b'g', &[object, page, write @ 0..=1]) => self.commit_page(object, page, write == 1),
            (b'h', &[object, page]) => self.peek(object, page),
            (b'r', &[object, offset, len]) => self.read(object, offset, len),
            (b'w', &[object, offset, byte @ 0..=255, len]) => self.write(
                object, offset, byte as u8, len, 0,
            ),
            (b'W', &[object, offset, byte @ 0..=255, len, step]) => {
                self.write(object, offset, byte as u8, len, (step % 256) as u8)
            }
            _ => return None,
        };
        Some(reply)
    }

    // The pool, to look at.
    pub fn view(&self) -> View<'_, '_>
        ensures { pool_in result ≡ pool_of self.now.objects.nodes.now self.now.store.pages.now self.now.store.used.now self.now.objects.mappings.now self.now.objects.head.now self.now.store.memory.now }
    {
        self.store.view(self.objects.tree(), self.objects.head())
    }

    fn child(&mut self, object: u64, offset: u64, len: u64) -> Reply {
        self.objects
            .child(&mut self.store, self.notices, object, offset, len)
    }

    fn commit(&mut self, object: u64, offset: u64, len: u64) -> Reply {
        call_commit::commit(
            self.objects.tree(),
            self.objects.head(),
            &mut self.store,
            self.notices,
            object,
            offset,
            len,
        )
    }

    fn commit_page(&mut self, object: u64, page: u64, write: bool) -> Reply {
        commit::commit_page(
            self.objects.tree(),
            self.objects.head(),
            &mut self.store,
            self.notices,
            object,
            page,
            write,
        )
    }

    // The value is 0 if nothing is shown, else 1 + the hash of the page.
    fn peek(&self, object: u64, page: u64) -> Reply {
        let value = match peek::peek(self.view(), &[0; 4096], object, page) {
            [] => 0,
            shown => report::bytes(shown) as u64 + 1,
        };
        Reply::of(Ok(value))
    }

    // The value is the hash of the bytes.
    fn read(&mut self, object: u64, offset: u64, len: u64) -> Reply {
        let buf = first(self.buf, len);
        let done = call_read::read(
            self.objects.tree(),
            self.objects.head(),
            &mut self.store,
            object,
            offset,
            buf,
        );
        Reply::of(done.map(|_| report::bytes(buf) as u64))
    }

    fn write(&mut self, object: u64, offset: u64, byte: u8, len: u64, step: u8) -> Reply {
        let buf = first(self.buf, len);
        fill(buf, byte, step);
        call_write::write(
            self.objects.tree(),
            self.objects.head(),
            &mut self.store,
            self.notices,
            object,
            offset,
            buf,
        )
    }
}

// Pages in bytes; no object has 65, so that more of them are no different.
fn in_bytes(pages: u64) -> u64 {
    pages.min(65) * 4096
}

// So many bytes, or all: no object is as long as the whole.
fn first(buf: &mut [u8], len: u64) -> &mut [u8] {
    let end = buf.len().min(len as usize);
    &mut buf[..end]
}

// Byte i is byte + i × step, mod 256.
fn fill(buf: &mut [u8], byte: u8, step: u8) {
    let mut value = byte;
    for place in buf.iter_mut() {
        *place = value;
        value = value.wrapping_add(step);
    }
}
