//! A mirrored file, its log and the slots that it holds.

ghost use Rattle.std.specs.Prelude.{◌≡◌, [], ◌∷◌, ◌++◌, ◌<◌, ◌≤◌, ◌^◌, ℕ, Bool, ◌+◌, true, length, map, IfOk, OnOk, OnErr};
ghost use Rattle.std.specs.Result.{IsErrOf};
ghost use Rattle.domains.specs.Drive.{Drive};
ghost use Rattle.domains.specs.Place.{Place};
ghost use Rattle.domains.specs.Level.{two_copies};
ghost use Rattle.plain_file.specs.Mirrors.{slots_of};
ghost use Rattle.plain_file.specs.FileParts.{units_of, inode_slots};
ghost use Rattle.plain_file.specs.FreeOrder.{AreKeptInOrder};
ghost use Rattle.plain_file.specs.Plain.{slots_for, MayPlay, count_all, free_on, OneEach, HasRoom, AllTell, Plays, KeepsStored, SortsSlots, HasFailed};

use crate::create::create;
use crate::file_slots::FileSlots;
use crate::op::{PlainFault, PlainOp};
use crate::pair::Pair;
use crate::read::read;
use crate::stock::Stock;
use crate::write::write;
use domains::{By, Level, Shape};
use file_history::{FileEntry, FileLog, NotedEntry};
use flex_io::{Slot, Steady};
use lists::List;
use std::alloc::{AllocError, Global};
use std::marker::Model;

/// A file at the level `2x`. Contracts see its log, with the bytes that each operation writes, and the slots that it holds.
#[derive(Drop)]
pub struct PlainFile<S: Slot + Drop> {
    shape: Shape,
    log: Vec<NotedEntry>,
    standing: FileSlots<S>,
}

/// What a file leaves: its log, and the slots of its group and of its inode, by position.
#[derive(Drop)]
pub struct PlainParts<S: Slot + Drop> {
    pub log: FileLog,
    pub units: List<S>,
    pub inode: List<S>,
}

impl<S: Slot + Drop> Model for PlainFile<S> {
    ghost use Rattle.plain_file.specs.Plain.{FileView};

    ghost Value = { FileView S };

    ghost use Rattle.plain_file.specs.FileParts.{units_of, inode_slots, KeepsFile};

    ghost view = { λ f. record { shape = f.shape; log = f.log.items; units = units_of f.standing; inode = inode_slots f.standing } };

    ghost invariant = { λ f. KeepsFile S.place_of S.content f.shape f.log.items f.standing };
}

impl<S: Slot + Drop + Steady> PlainFile<S> {
    /// A file that is absent, declared at the level `2x`.
    pub fn new(alloc: Global, shape: Shape, level: Level) -> PlainFile<S>
        requires { level ≡ two_copies }
        ensures { result ≡ record { shape = shape; log = []; units = []; inode = [] } }
    {
        let _level = level;
        PlainFile {
            shape,
            log: Vec::new(alloc),
            standing: FileSlots::Absent,
        }
    }

    /// Plays an operation at the board's present epoch, and writes its entry at the end of the log: what was done, or why
    /// it was refused (docs/DEFINITIONS.md, "Steps of a file"). New units come from the stock, and old ones go back to it.
    ///
    /// A file whose slot failed is not used again.
    pub fn play(
        &mut self,
        alloc: Global,
        by: By,
        op: &PlainOp,
        stock: &mut Stock<S>,
    ) -> Result<(), PlainFault>
        requires shape { stock.old.shape ≡ self.old.shape }
        requires within { length stock.old.board < 2 ^ 32 }
        requires may { MayPlay self.old.shape self.old.log op.now }
        requires one_each { OneEach S.place_of self.old stock.old }
        requires room { HasRoom S.place_of (slots_for op.now) stock.old }

        // What was played.
        ensures played { OnOk result (Plays by op.now stock.old.board (AllTell S.content self.old stock.old) self.old self.new) }
        ensures tell { OnOk result (AllTell S.content self.old stock.old → AllTell S.content self.new stock.new) }
        ensures keeps { OnOk result (KeepsStored S.place_of S.content self.new) }
        ensures kept { OnErr result (self.new.log ≡ self.old.log) }
        ensures fault { IsErrOf result PlainFault.Slot → HasFailed S.place_of S.faults stock.old }

        // Slots move between the file and the stock, and from each drive no more than the operation may take.
        ensures conserved { (p : Place → Bool) → count_all S.place_of p self.new stock.new ≡ count_all S.place_of p self.old stock.old }
        ensures spared { (d : Drive) → free_on S.place_of d stock.old ≤ free_on S.place_of d stock.new + slots_for op.now }
        ensures sorted { SortsSlots S.place_of stock.old stock.new }
        ensures ordered { OnOk result (AreKeptInOrder S.place_of self.old stock.old → AreKeptInOrder S.place_of self.new stock.new) }
        ensures same_shape { self.new.shape ≡ self.old.shape }
        ensures same_stock { (stock.new.shape ≡ stock.old.shape) × (stock.new.board ≡ stock.old.board) }
    {
        let _nodes = self.shape.nodes();
        match op {
            PlainOp::Create => create(
                alloc,
                self.shape,
                by,
                &mut self.log,
                &mut self.standing,
                stock,
            ),
            PlainOp::Write { bytes } => {
                let bytes = bytes.as_slice();
                write(
                    alloc,
                    self.shape,
                    by,
                    bytes,
                    &mut self.log,
                    &mut self.standing,
                    stock,
                )
            }
            PlainOp::Read { offset, len } => {
                read(
                    alloc,
                    self.shape,
                    by,
                    *offset,
                    *len,
                    &mut self.log,
                    &mut self.standing,
                    stock,
                )
            }
        }
    }

    /// The log, and the slots by position.
    pub fn close(self, alloc: Global) -> Result<PlainParts<S>, AllocError>
        ensures log { IfOk result (λ parts. parts.log ≡ map (λ t. t.entry) self.log) }
        ensures units { IfOk result (λ parts. parts.units ≡ self.units) }
        ensures inode { IfOk result (λ parts. parts.inode ≡ self.inode) }
    {
        let PlainFile {
            shape: _,
            log,
            standing,
        } = self;
        let log = entries(alloc, log)?;
        let mut units = Vec::new(alloc);
        let mut inode = Vec::new(alloc);
        close_standing(standing, &mut units, &mut inode)?;
        Ok(PlainParts {
            log: List::from_vec(log),
            units: List::from_vec(units),
            inode: List::from_vec(inode),
        })
    }
}

/// The entries of a log, without the bytes that they wrote.
fn entries(alloc: Global, told: Vec<NotedEntry>) -> Result<Vec<FileEntry>, AllocError>
    ensures { IfOk result (λ log. log.items ≡ map (λ t. t.entry) told.items) }
{
    told.into_iter().map(entry_of).collect(alloc)
}

fn entry_of(told: NotedEntry) -> FileEntry
    ensures { result ≡ told.entry }
{
    let NotedEntry { entry, payload: _ } = told;
    entry
}

/// The slots that a file holds.
fn close_standing<S: Slot + Drop>(
    standing: FileSlots<S>,
    units: &mut Vec<S>,
    inode: &mut Vec<S>,
) -> Result<(), AllocError>
    requires no_units { units.old.items ≡ [] }
    requires no_inode { inode.old.items ≡ [] }
    ensures units { OnOk result (units.new.items ≡ units_of standing) }
    ensures inode { OnOk result (inode.new.items ≡ inode_slots standing) }
{
    match standing {
        FileSlots::Absent => {}
        FileSlots::Empty { inode: pair } => push_pair(pair, inode)?,
        FileSlots::Written {
            size: _,
            units: first,
            inode: pair,
        } => {
            push_pair(first, units)?;
            push_pair(pair, inode)?;
        }
    }
    Ok(())
}

fn push_pair<S: Slot + Drop>(pair: Pair<S>, slots: &mut Vec<S>) -> Result<(), AllocError>
    ensures { OnOk result (slots.new.items ≡ slots.old.items ++ slots_of pair) }
{
    let Pair { first, second } = pair;
    slots.push(first)?;
    slots.push(second)?;
    Ok(())
}
