//! The indices of a machine by handle.

ghost use Rattle.std.specs.Prelude.{◌≡◌, ◌+◌, ◌≤◌, Some, None, nat_eq, length, map, take, drop, All, IsSome, IfOk, IfErr, IfSome, OnOk, OnErr};
ghost use Rattle.std.specs.Option.{option_copied};
ghost use Rattle.std.specs.List.{IsDistinct};
ghost use Rattle.tpm_nv.specs.Contents.{HasContent};
ghost use Rattle.tpm_nv.specs.Counters.{greatest_count};
ghost use Rattle.tpm_nv.specs.Indices.{count_after, counter_rule, incremented_at, index_of, rule_of, written_at};
ghost use Rattle.tpm_nv.specs.Rules.{read_rule, write_rule};

use crate::contents::write_at;
use crate::rules::{check_read, check_write, next_count, written_count};
use indexmap::IndexMap;
use std::alloc::Global;
use std::marker::Model;
use tpol_base::{NoMemory, Rc, Sequence};
use tpol_name::{IndexEntry, Indices};

/// The NV indices of a machine, found by handle; contracts see the list of them, in the order in which they
/// were given. The table is filled when it is made, and no later call takes memory but the copy.
#[derive(Drop)]
pub struct NvTable {
    indices: IndexMap<u32, IndexEntry>,
    alloc: Global,
}

impl Model for NvTable {
    ghost use Rattle.std.specs.Prelude.{List};
    ghost use Rattle.indexmap.specs.IndexMap.{values};
    ghost use Rattle.tpol_name.specs.declared.entries.IndexEntry.{IndexEntry as OneIndex};
    ghost use Rattle.tpm_nv.specs.Tables.{IsByHandle};

    ghost Value = { List OneIndex };

    ghost view = { λ t. values t.indices };

    ghost invariant = { λ t. IsByHandle t.indices.entries };
}

impl NvTable {
    /// The table of these indices, whose contents have their sizes, and no two of which have one handle.
    pub fn new(alloc: Global, indices: Indices) -> Result<NvTable, NoMemory>
        requires contents { All HasContent indices }
        requires handles { IsDistinct nat_eq (map (λ entry. entry.public.index) indices) }
        ensures indices { IfOk result (λ table. table ≡ indices) }
    {
        let mut table = IndexMap::with_capacity(alloc, indices.len())?;
        for entry in indices.into_vec() {
            drop(table.insert(entry.public.index, entry)?);
        }
        Ok(NvTable {
            indices: table,
            alloc,
        })
    }

    /// The index with this handle; `None` exactly where there is none.
    pub fn find(&self, index: u32) -> Option<&IndexEntry>
        ensures found { option_copied result ≡ index_of index self.now }
    {
        self.indices.get(&index)
    }

    /// A copy of all indices, in order.
    pub fn to_indices(&self, alloc: Global) -> Result<Indices, NoMemory>
        ensures copy { IfOk result (λ indices. indices ≡ self.now) }
    {
        let mut copies = Sequence::new(alloc);
        for entry in self.indices.values() {
            copies.push(entry.clone()?)?;
        }
        Ok(copies)
    }

    /// So many bytes of an index, from the offset on (TPM 2.0 Part 3, TPM2_NV_Read). Refuses as
    /// `check_read`.
    pub fn read(&self, index: u32, offset: u16, size: u16) -> Result<&[u8], Rc>
        requires there { IsSome (index_of index self.now) }
        ensures bytes { IfOk result
            (λ bytes. IfSome (index_of index self.now) (λ entry. bytes.now
            ≡ take size (drop offset entry.content))) }
        ensures ok { OnOk result (rule_of (λ entry. read_rule entry offset size) index self.now
            ≡ None) }
        ensures refused { IfErr result
            (λ rc. rule_of (λ entry. read_rule entry offset size) index self.now ≡ Some rc.code) }
    {
        let entry = self.entry_at(index);
        check_read(entry, offset, size)?;
        let start = offset as usize;
        Ok(&entry.content.as_slice()[start..start + size as usize])
    }

    /// Writes bytes into an index, from the offset on, and sets WRITTEN (TPM 2.0 Part 3, TPM2_NV_Write).
    /// Refuses as `check_write`, and then changes nothing.
    pub fn write(&mut self, index: u32, offset: u16, bytes: &[u8]) -> Result<(), Rc>
        requires there { IsSome (index_of index self.old) }
        ensures written { OnOk result (self.new ≡ written_at index offset bytes.now self.old) }
        ensures ok { OnOk result
            (rule_of (λ entry. write_rule entry offset (length bytes.now)) index self.old ≡ None) }
        ensures refused { IfErr result
            (λ rc. rule_of (λ entry. write_rule entry offset (length bytes.now)) index self.old
            ≡ Some rc.code) }
        ensures err { OnErr result (self.new ≡ self.old) }
    {
        check_write(self.entry_at(index), offset, bytes.len())?;
        self.overwrite(index, offset as usize, bytes);
        Ok(())
    }

    /// The count of a counter after an increment; one that was never written goes on from the greatest count
    /// of all written counters, or from 0 (TPM 2.0 Part 3, TPM2_NV_Increment). Refuses as `next_count`.
    pub fn next_count(&self, index: u32) -> Result<u64, Rc>
        requires there { IsSome (index_of index self.now) }
        ensures next { IfOk result (λ next. next ≡ count_after index self.now) }
        ensures ok { OnOk result (rule_of (counter_rule self.now) index self.now ≡ None) }
        ensures refused { IfErr result (λ rc. rule_of (counter_rule self.now) index self.now
            ≡ Some rc.code) }
    {
        let greatest = self.greatest_count();
        next_count(self.entry_at(index), greatest)
    }

    /// Raises a counter by one and sets WRITTEN; one that was never written goes on from the greatest count
    /// of all written counters, or from 0 (TPM 2.0 Part 3, TPM2_NV_Increment). Refuses as `next_count`, and
    /// then changes nothing.
    pub fn increment(&mut self, index: u32) -> Result<(), Rc>
        requires there { IsSome (index_of index self.old) }
        ensures incremented { OnOk result (self.new ≡ incremented_at index self.old) }
        ensures ok { OnOk result (rule_of (counter_rule self.old) index self.old ≡ None) }
        ensures refused { IfErr result (λ rc. rule_of (counter_rule self.old) index self.old
            ≡ Some rc.code) }
        ensures err { OnErr result (self.new ≡ self.old) }
    {
        let next = next_count(self.entry_at(index), self.greatest_count())?;
        self.overwrite(index, 0, &next.to_be_bytes());
        Ok(())
    }

    // The index with this handle.
    fn entry_at(&self, index: u32) -> &IndexEntry
        requires there { IsSome (index_of index self.now) }
        ensures found { index_of index self.now ≡ Some result.now }
        ensures content { HasContent result.now }
    {
        self.indices.get(&index).unwrap()
    }

    // The greatest count of all written counters, and 0 where there is none.
    fn greatest_count(&self) -> u64
        ensures greatest { result ≡ greatest_count self.now }
    {
        let mut greatest = 0;
        for entry in self.indices.values() {
            if let Some(count) = written_count(entry) {
                greatest = greatest.max(count);
            }
        }
        greatest
    }

    // Writes bytes into an index, which has room for them, and sets WRITTEN.
    fn overwrite(&mut self, index: u32, offset: usize, bytes: &[u8])
        requires there { IsSome (index_of index self.old) }
        requires within { IfSome (index_of index self.old) (λ entry. offset + length bytes.now
            ≤ length entry.content) }
        ensures written { self.new ≡ written_at index offset bytes.now self.old }
    {
        if let Some(entry) = self.indices.get_mut(&index) {
            write_at(self.alloc, entry, offset, bytes);
        }
    }
}
