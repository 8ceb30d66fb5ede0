//! Scripts and their sessions. A contract sees a `Script` as its `ScriptLines`, and a `SessionText` as its
//! `SessionLines`.

ghost use Rattle.std.specs.Prelude.{◌≡◌, ◌<◌, ◌≤◌, ◌==◌, [], ◌∷◌, ◌++◌, false, length, Some, OnOk, OnErr, slice_get};
ghost use Rattle.bs_script.specs.Blocks.{ScriptLines, SessionLines, IsSound, empty_script, has_name, with_table, with_session};
ghost use Rattle.bs_script.specs.Places.{place_of};
ghost use Rattle.bs_script.specs.declared.TheConstants.{MAX_TABLES, MAX_COMMANDS};

use crate::texts::Texts;
use bs_tableau::Tableau;
use std::alloc::{AllocError, Global};
use std::collections::BTreeMap;
use std::marker::Model;

/// One session: its commands, and how many tableaux stand above it.
#[derive(Drop)]
pub struct SessionText {
    above: usize,
    commands: Texts,
}

impl Model for SessionText {
    ghost use Rattle.bs_script.specs.Blocks.{SessionLines};

    ghost Value = { SessionLines };

    ghost view = { λ a. record { above = a.above; commands = a.commands } };
}

impl SessionText {
    /// The number of tableaux that stand above it.
    pub fn above(&self) -> usize
        ensures { result ≡ self.now.above }
    {
        self.above
    }

    /// The number of commands.
    pub fn len(&self) -> usize
        ensures { result ≡ length self.now.commands }
    {
        self.commands.len()
    }

    pub fn is_empty(&self) -> bool
        ensures { result ≡ (length self.now.commands == 0) }
    {
        self.commands.len() == 0
    }

    /// The line of a command, without a carriage return at its end.
    pub fn command(&self, place: usize) -> &[u8]
        requires { place < length self.now.commands }
        ensures { slice_get self.now.commands place ≡ Some result.now }
    {
        self.commands.get(place)
    }
}

/// The tableaux and sessions of an input.
///
/// A name is kept twice: at its tableau's place, and as the key of that place in a search tree.
#[derive(Drop)]
pub struct Script {
    alloc: Global,
    names: Vec<Vec<u8>>,
    places: BTreeMap<Vec<u8>, usize>,
    tables: Vec<Tableau>,
    sessions: Vec<SessionText>,
}

impl Model for Script {
    ghost use Rattle.std.specs.Prelude.{map};
    ghost use Rattle.bs_script.specs.Blocks.{ScriptLines, IsSound};
    ghost use Rattle.bs_script.specs.Places.{IsIndex};

    ghost Value = { ScriptLines };

    ghost view = { λ a. record { table_names = map (λ k. k.items) a.names.items; tables = a.tables.items; sessions = a.sessions.items } };

    ghost invariant = { λ a. IsSound (record { table_names = map (λ k. k.items) a.names.items; tables = a.tables.items; sessions = a.sessions.items })
        × IsIndex (λ k. k.items) a.places.entries (map (λ k. k.items) a.names.items) };
}

impl Script {
    /// The tableaux, in the order of the script.
    pub fn tables(&self) -> &[Tableau]
        ensures value { result.now ≡ self.now.tables }
        ensures sound { IsSound self.now }
    {
        &self.tables
    }

    /// The name of a tableau.
    pub fn table_name(&self, number: usize) -> &[u8]
        requires { number < length self.now.tables }
        ensures { slice_get self.now.table_names number ≡ Some result.now }
    {
        &self.names[number]
    }

    /// The number of the tableau of this name. Goes down one search tree of names.
    pub fn find_table(&self, name: &[u8]) -> Option<usize>
        ensures { result ≡ place_of name.now self.now.table_names }
    {
        self.places.get(name).copied()
    }

    /// The sessions, in the order of the script.
    pub fn sessions(&self) -> &[SessionText]
        ensures value { result.now ≡ self.now.sessions }
        ensures sound { IsSound self.now }
    {
        &self.sessions
    }

    /// A script of no blocks. Takes no memory.
    pub(crate) fn empty(alloc: Global) -> Script
        ensures { result ≡ empty_script }
    {
        Script {
            alloc,
            names: Vec::new(alloc),
            places: BTreeMap::new(alloc),
            tables: Vec::new(alloc),
            sessions: Vec::new(alloc),
        }
    }

    /// Has a tableau this name?
    pub(crate) fn has_name(&self, name: &[u8]) -> bool
        ensures { result ≡ has_name self.now name.now }
    {
        self.find_table(name).is_some()
    }

    /// Adds a tableau of a new name. Where memory is wanted, nothing has changed.
    pub(crate) fn add_table(&mut self, name: &[u8], table: Tableau) -> Result<(), AllocError>
        requires fresh { has_name self.old name.now ≡ false }
        requires few { length self.old.tables < MAX_TABLES }
        ensures ok { OnOk result (self.new ≡ with_table self.old name.now table) }
        ensures err { OnErr result (self.new ≡ self.old) }
    {
        self.tables.reserve(1)?;
        self.names.reserve(1)?;
        let shown = Vec::from_slice(self.alloc, name)?;
        let key = Vec::from_slice(self.alloc, name)?;
        self.places.insert(key, self.names.len())?;
        self.names.push_reserved(shown);
        self.tables.push_reserved(table);
        Ok(())
    }

    /// Adds a session below the tableaux so far.
    pub(crate) fn add_session(&mut self, commands: Texts) -> Result<(), AllocError>
        requires few { length commands ≤ MAX_COMMANDS }
        ensures ok { OnOk result (self.new ≡ with_session self.old commands) }
        ensures err { OnErr result (self.new ≡ self.old) }
    {
        let above = self.tables.len();
        self.sessions.push(SessionText { above, commands })?;
        Ok(())
    }
}
