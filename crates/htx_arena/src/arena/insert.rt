//! Fields, start lines and ends put in anywhere: each exactly where the list with it fits, else nothing changes.
ghost use Rattle.std.specs.Prelude.{◌≡◌, ◌+◌, ◌≤◌, ◌↔◌, [], length, insert, OnOk, OnErr, IsOk};
ghost use Rattle.htx_model.specs.Block.{block, IsLineKind, IsFieldKind, IsEndKind};
ghost use Rattle.htx_model.specs.Blocks.{Fits};
ghost use Rattle.htx_arena.specs.Layout.Addresses.{inserted};

use crate::arena::{Arena, Full};
use crate::layout::{NewBlock, line_head};
use htx_model::Kind;

impl Arena {
    /// Puts in a header or trailer.
    pub fn insert_field(
        &mut self,
        at: u32,
        kind: Kind,
        name: &[u8],
        value: &[u8],
    ) -> Result<(), Full>
        requires within { at ≤ length self.old.blocks }
        requires kind { IsFieldKind kind }
        requires named { 1 ≤ length name.now }
        requires short { length name.now ≤ 255 }
        ensures ok { OnOk result (self.new.blocks ≡ insert self.old.blocks at (block kind name.now value.now [])) }
        ensures fits { IsOk result ↔ Fits (insert self.old.blocks at (block kind name.now value.now [])) self.old.size }
        ensures full { OnErr result (self.new ≡ self.old) }
        ensures size { self.new.size ≡ self.old.size }
        ensures addrs { OnOk result (self.new.addrs ≡ (inserted self.old at (length name.now + length value.now)).addrs) }
        ensures front { OnOk result (self.new.front ≡ (inserted self.old at (length name.now + length value.now)).front) }
    {
        let room = self.free();
        if value.len() > room {
            return Err(Full);
        }
        if 8 + name.len() + value.len() > room {
            return Err(Full);
        }
        self.put(at, &NewBlock::field(kind, name, value));
        Ok(())
    }

    /// Puts in a start line.
    pub fn insert_line(
        &mut self,
        at: u32,
        kind: Kind,
        a: &[u8],
        b: &[u8],
        c: &[u8],
    ) -> Result<(), Full>
        requires within { at ≤ length self.old.blocks }
        requires kind { IsLineKind kind }
        ensures ok { OnOk result (self.new.blocks ≡ insert self.old.blocks at (block kind a.now b.now c.now)) }
        ensures fits { IsOk result ↔ Fits (insert self.old.blocks at (block kind a.now b.now c.now)) self.old.size }
        ensures full { OnErr result (self.new ≡ self.old) }
        ensures size { self.new.size ≡ self.old.size }
        ensures addrs { OnOk result (self.new.addrs ≡ (inserted self.old at (12 + length a.now + length b.now + length c.now)).addrs) }
        ensures front { OnOk result (self.new.front ≡ (inserted self.old at (12 + length a.now + length b.now + length c.now)).front) }
    {
        let room = self.free();
        if a.len() > room || b.len() > room || c.len() > room {
            return Err(Full);
        }
        let len = 12 + a.len() + b.len() + c.len();
        if 8 + len > room {
            return Err(Full);
        }
        let head = line_head(a.len() as u32, b.len() as u32, c.len() as u32);
        self.put(at, &NewBlock::line(kind, &head, a, b, c));
        Ok(())
    }

    /// Puts in the end of headers or of trailers.
    pub fn insert_end(&mut self, at: u32, kind: Kind) -> Result<(), Full>
        requires within { at ≤ length self.old.blocks }
        requires kind { IsEndKind kind }
        ensures ok { OnOk result (self.new.blocks ≡ insert self.old.blocks at (block kind [] [] [])) }
        ensures fits { IsOk result ↔ Fits (insert self.old.blocks at (block kind [] [] [])) self.old.size }
        ensures full { OnErr result (self.new ≡ self.old) }
        ensures size { self.new.size ≡ self.old.size }
        ensures addrs { OnOk result (self.new.addrs ≡ (inserted self.old at 1).addrs) }
        ensures front { OnOk result (self.new.front ≡ (inserted self.old at 1).front) }
    {
        if self.free() < 9 {
            return Err(Full);
        }
        self.put(at, &NewBlock::end(kind));
        Ok(())
    }
}
