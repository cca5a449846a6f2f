//! Pairs in records, none of which a record cuts. A call that finds no memory leaves a writer that is of no more use.
ghost use Rattle.std.specs.Prelude.{◌≡◌, ◌<◌, ◌≤◌, ◌+◌, ◌++◌, length, OnOk, IfSome, IsNone, IfOk, option_map};
ghost use Rattle.fcgi_record.specs.Pairs.{length_bytes, pair_bytes};
ghost use Rattle.fcgi_model.specs.Records.{most_alone, nothing, closed, with_room, put, finished};

use crate::request::records::{MOST_ALONE, MOST_CONTENT, push_record};
use fcgi_record::{RecordKind, put_lengths};
use http_model::OutOfMemory;
use std::alloc::Global;
use std::marker::Model;

/// In how many bytes a length stands.
fn length_size(len: usize) -> usize
    ensures { result ≡ length (length_bytes len) }
{
    if len < 128 { 1 } else { 4 }
}

/// How many bytes a pair takes; none where they are more than a record can hold.
#[tactic(auto, using(crate::proofs::RequestLemmas::Packings::pair_length))]
fn pair_size(name: &[u8], value: &[u8]) -> Option<usize>
    ensures some { IfSome result (λ n. (n ≡ length (pair_bytes name.now value.now)) × (n ≤ most_alone)) }
    ensures none { IsNone result → most_alone < length (pair_bytes name.now value.now) }
{
    if name.len() > MOST_ALONE || value.len() > MOST_ALONE {
        return None;
    }
    let size = length_size(name.len()) + length_size(value.len()) + (name.len() + value.len());
    if size > MOST_ALONE {
        return None;
    }
    Some(size)
}

/// Puts a pair behind a text.
fn push_pair(text: &mut Vec<u8>, name: &[u8], value: &[u8]) -> Result<(), OutOfMemory>
    requires { length (pair_bytes name.now value.now) ≤ most_alone }
    ensures items { OnOk result (text.new.items ≡ text.old.items ++ pair_bytes name.now value.now) }
    ensures within { length text.new.items ≤ length text.old.items + length (pair_bytes name.now value.now) }
{
    let mut lengths = [0; 8];
    let used = put_lengths(name.len() as u32, value.len() as u32, &mut lengths);
    text.extend_from_slice(&lengths[..used])?;
    text.extend_from_slice(name)?;
    text.extend_from_slice(value)?;
    Ok(())
}

/// Pairs in records, so far.
#[derive(Drop)]
pub(crate) struct PairWriter {
    text: Vec<u8>,
    content: Vec<u8>,
    long: bool,
}

impl Model for PairWriter {
    ghost use Rattle.std.specs.Prelude.{◌≤◌, length};
    ghost use Rattle.fcgi_model.specs.Records.{Packing, most_alone};

    ghost Value = { Packing };

    ghost view = { λ w. record { text = w.text.items; content = w.content.items; long = w.long } };

    ghost invariant = { λ w. length w.content.items ≤ most_alone };
}

impl PairWriter {
    /// No pair so far.
    pub fn new(alloc: Global) -> PairWriter
        ensures { result ≡ nothing }
    {
        PairWriter {
            text: Vec::new(alloc),
            content: Vec::new(alloc),
            long: false,
        }
    }

    /// Ends the record, where it has a pair.
    fn close(&mut self) -> Result<(), OutOfMemory>
        ensures { OnOk result (self.new ≡ closed self.old) }
    {
        if self.content.is_empty() {
            return Ok(());
        }
        push_record(&mut self.text, RecordKind::Params, &self.content)?;
        self.content.clear();
        Ok(())
    }

    /// Ends the record, where so many bytes more don't fit in.
    fn make_room(&mut self, size: usize) -> Result<(), OutOfMemory>
        requires { size ≤ most_alone }
        ensures made { OnOk result (self.new ≡ with_room size self.old) }
        ensures room { OnOk result (length self.new.content + size ≤ most_alone) }
    {
        if self.content.len() + size <= MOST_CONTENT {
            return Ok(());
        }
        self.close()
    }

    /// Puts a pair behind the others, whole in one record. One that is longer than a record can be is refused: there are no records then.
    #[tactic(auto, unfolding(fcgi_model::specs::Records::put))]
    pub fn put(&mut self, name: &[u8], value: &[u8]) -> Result<(), OutOfMemory>
        ensures { OnOk result (self.new ≡ put self.old (name.now, value.now)) }
    {
        let Some(size) = pair_size(name, value) else {
            self.long = true;
            return Ok(());
        };
        self.make_room(size)?;
        push_pair(&mut self.content, name, value)
    }

    /// Ends the pairs by the empty record, and answers all records; none where a pair was too long.
    pub fn finish(mut self) -> Result<Option<Vec<u8>>, OutOfMemory>
        ensures { IfOk result (λ text. finished self ≡ option_map (λ t. t.items) text) }
    {
        if self.long {
            return Ok(None);
        }
        self.close()?;
        push_record(&mut self.text, RecordKind::Params, b"")?;
        Ok(Some(self.text))
    }
}
