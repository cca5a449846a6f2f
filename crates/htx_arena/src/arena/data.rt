//! Data behind the last block: as much of it as fits, in a last block of data where there is one, else in one of its own.
ghost use Rattle.std.specs.Prelude.{◌≡◌, ◌-◌, ◌<◌, suc, length, IsTrue, IsFalse, take};
ghost use Rattle.htx_model.specs.Block.{kind_of};
ghost use Rattle.htx_model.specs.Blocks.{block_at, taken, append_data, data_overhead};
ghost use Rattle.htx_model.specs.declared.Kind.TheVariants.{Data};
ghost use Rattle.htx_arena.specs.Layout.Addresses.{appended};

use crate::arena::Arena;
use crate::layout::NewBlock;
use htx_model::Kind;

impl Arena {
    /// Appends the longest prefix of the bytes that fits, and answers its length. A last block of data is extended,
    /// else a block is made; where nothing fits, nothing changes.
    pub fn add_data(&mut self, bytes: &[u8]) -> u32
        ensures taken { result ≡ taken self.old.blocks self.old.size bytes.now }
        ensures blocks { self.new.blocks ≡ append_data self.old.blocks (take result bytes.now) }
        ensures size { self.new.size ≡ self.old.size }
        ensures addrs { self.new.addrs ≡ (appended self.old result).addrs }
        ensures front { self.new.front ≡ (appended self.old result).front }
    {
        if self.ends_in_data() {
            return self.add_behind(self.len() - 1, bytes);
        }
        self.add_block(bytes)
    }

    /// Whether the last block is data.
    fn ends_in_data(&self) -> bool
        ensures any { IsTrue result → 0 < length self.now.blocks }
        ensures data { IsTrue result → kind_of (block_at self.now.blocks (length self.now.blocks - 1)) ≡ Data }
        ensures other { IsFalse result → data_overhead self.now.blocks ≡ 8 }
    {
        let count = self.len();
        if count == 0 {
            return false;
        }
        match self.kind(count - 1) {
            Kind::Data => true,
            _ => false,
        }
    }

    /// Appends what fits behind a last block of data.
    fn add_behind(&mut self, at: u32, bytes: &[u8]) -> u32
        requires last { length self.old.blocks ≡ suc at }
        requires data { kind_of (block_at self.old.blocks at) ≡ Data }
        ensures taken { result ≡ taken self.old.blocks self.old.size bytes.now }
        ensures blocks { self.new.blocks ≡ append_data self.old.blocks (take result bytes.now) }
        ensures size { self.new.size ≡ self.old.size }
        ensures addrs { self.new.addrs ≡ (appended self.old result).addrs }
        ensures front { self.new.front ≡ (appended self.old result).front }
    {
        let len = bytes.len().min(self.free());
        if len == 0 {
            return 0;
        }
        self.extend(at, &bytes[..len]);
        len as u32
    }

    /// Appends what fits as a block of its own.
    fn add_block(&mut self, bytes: &[u8]) -> u32
        requires { data_overhead self.old.blocks ≡ 8 }
        ensures taken { result ≡ taken self.old.blocks self.old.size bytes.now }
        ensures blocks { self.new.blocks ≡ append_data self.old.blocks (take result bytes.now) }
        ensures size { self.new.size ≡ self.old.size }
        ensures addrs { self.new.addrs ≡ (appended self.old result).addrs }
        ensures front { self.new.front ≡ (appended self.old result).front }
    {
        let len = bytes.len().min(self.free().saturating_sub(8));
        if len == 0 {
            return 0;
        }
        self.put(self.len(), &NewBlock::data(&bytes[..len]));
        len as u32
    }
}
