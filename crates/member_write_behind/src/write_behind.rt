ghost use Rattle.std.specs.Prelude.{◌≡◌, ◌<◌, ◌≤◌, ◌+◌, [], IfOk, OnOk, OnErr};
ghost use Rattle.member_keeper.specs.Tables.{put_all, IsTable};
ghost use Rattle.member_keeper.specs.Calls.{IsCaused};
ghost use Rattle.member_write_behind.specs.Gathering.{IsGathering, StoresBehind, HandsOn, LoadsBehind, ClearsBehind, Flushes};

use base_bytes::Memory;
use member_keeper::{Keeper, KeeperError, MemoryTable, Stored};
use std::alloc::Global;
use std::marker::Model;

/// A keeper that gathers stores, and hands them to an inner keeper together.
///
/// With a period of N, the first N - 1 stores wait, and the next is made together with them, as one store of the last value
/// of each key. So at most N - 1 stores are lost where it stops, never one in the middle.
#[derive(Drop)]
pub struct WriteBehind<D: Keeper> {
    pub(crate) alloc: Global,
    inner: D,
    period: u8,
    waiting: u8,
    pending: MemoryTable,
}

impl<D: Keeper> Model for WriteBehind<D> {
    ghost use Rattle.std.specs.Prelude.{◌≡◌};
    ghost use Rattle.member_write_behind.specs.Gathering.{Gathered, IsGathering};

    ghost Value = { Gathered D };

    ghost view = { λ w. record { inner = w.inner; period = w.period; waiting = w.waiting; pending = w.pending.entries } };

    ghost invariant = { λ w. IsGathering w.period w.waiting w.pending.entries };
}

impl<D: Keeper> WriteBehind<D> {
    /// A keeper over an inner one, with a period of 1 to 64. Nothing is pending.
    pub fn new(alloc: Global, inner: D, period: u8) -> WriteBehind<D>
        requires some { 1 ≤ period }
        requires few { period ≤ 64 }
        ensures { result ≡ record { inner = inner; period = period; waiting = 0; pending = [] } }
    {
        WriteBehind {
            alloc,
            inner,
            period,
            waiting: 0,
            pending: MemoryTable::new(alloc),
        }
    }

    /// Hands what is pending to the inner keeper, if anything is.
    ///
    /// # Errors
    ///
    /// The inner keeper failed, or memory was refused: all is as it was.
    pub fn flush(&mut self) -> Result<(), KeeperError>
        ensures flushes { Flushes D.Keeper.own self.old self.new result }
        ensures sound { IsGathering self.new.period self.new.waiting self.new.pending }
    {
        if self.waiting == 0 {
            return Ok(());
        }
        self.inner.store(self.pending.entries())?;
        self.pending.clear();
        self.waiting = 0;
        Ok(())
    }

    /// The inner keeper. What is pending is lost.
    pub fn stop(self) -> D
        ensures { result ≡ self.inner }
    {
        self.inner
    }

    /// A table of what is pending and of these entries, put one after the other.
    fn gathered(&self, entries: &[Stored]) -> Result<MemoryTable, Memory>
        ensures { IfOk result (λ table. table.entries ≡ put_all self.now.pending entries.now) }
    {
        let mut table = MemoryTable::new(self.alloc);
        let pending = table.prepare(self.pending.entries())?;
        table.put_all(pending);
        let copies = table.prepare(entries)?;
        table.put_all(copies);
        Ok(table)
    }

    /// Hands on what is pending and these entries together. Nothing is pending then.
    fn hand_on(&mut self, entries: &[Stored]) -> Result<(), KeeperError>
        ensures hands_on { HandsOn D.Keeper.own self.old self.new entries.now result }
        ensures sound { IsGathering self.new.period self.new.waiting self.new.pending }
    {
        let all = self.gathered(entries)?;
        self.inner.store(all.entries())?;
        self.pending.clear();
        self.waiting = 0;
        Ok(())
    }

    /// Adds a store to those that are pending.
    fn wait(&mut self, entries: &[Stored]) -> Result<(), Memory>
        requires { self.old.waiting + 1 < self.old.period }
        ensures ok { OnOk result (self.new ≡ record self.old { waiting = self.old.waiting + 1; pending = put_all self.old.pending entries.now }) }
        ensures err { OnErr result (self.new ≡ self.old) }
        ensures sound { IsGathering self.new.period self.new.waiting self.new.pending }
    {
        let copies = self.pending.prepare(entries)?;
        self.pending.put_all(copies);
        self.waiting += 1;
        Ok(())
    }
}

impl<D: Keeper> Keeper for WriteBehind<D> {
    ghost use Rattle.std.specs.Prelude.{None};
    ghost use Rattle.member_write_behind.specs.Gathering.{table_of};
    ghost use Rattle.member_write_behind.specs.Telling.{tells_as_inner};

    ghost table = { λ w. table_of D.Keeper.own w };

    ghost answers = { λ _. None };

    ghost faults = { λ w. D.faults w.inner };

    ghost tells_alike = { λ a b. tells_as_inner D.Keeper.own a b (D.tells_alike a.inner b.inner) };

    fn store(&mut self, entries: &[Stored]) -> Result<(), KeeperError>
        ensures gathers { StoresBehind D.Keeper.own self.old self.new entries.now result }
        ensures table { IsTable self.old.pending }
        ensures sound { IsGathering self.new.period self.new.waiting self.new.pending }
    {
        if self.waiting + 1 < self.period {
            self.wait(entries)?;
            return Ok(());
        }
        self.hand_on(entries)
    }

    fn load(&mut self) -> Result<Vec<Stored>, KeeperError>
        ensures gathers { LoadsBehind D.Keeper.own self.old self.new (λ loaded. loaded.items) result }
    {
        let loaded = self.inner.load()?;
        let mut table = MemoryTable::new(self.alloc);
        let copies = table.prepare(&loaded)?;
        table.put_all(copies);
        let later = table.prepare(self.pending.entries())?;
        table.put_all(later);
        Ok(table.copies()?)
    }

    fn clear(&mut self) -> Result<(), KeeperError>
        ensures gathers { ClearsBehind D.Keeper.own self.old self.new result }
        ensures sound { IsGathering self.new.period self.new.waiting self.new.pending }
    {
        self.inner.clear()?;
        self.pending.clear();
        self.waiting = 0;
        Ok(())
    }
}
