//! A session as a job of a pool: its head and its replies are the answer.
//!
//! Nobody reads the count of the terms that a session works out, so its ledger is a brand.

ghost use Rattle.std.specs.Prelude.{◌≡◌, ◌<◌, length, IfOk};
ghost use Rattle.bs_store.specs.Walks.{Same, SamePass};
ghost use Rattle.bs_workers.specs.Texts.{text_at};

use bs_catalog::Catalog;
use bs_drive::run_session_shared;
use bs_memo::{Memo, MemoName};
use bs_pool::Work;
use bs_reply::{Line, write_line};
use bs_script::Script;
use bs_steps::Steps;
use bs_store::{Pass, Store};
use std::alloc::{AllocError, Global};
use std::marker::Brand;
use std::sync::ledger::{Blank, Ledger};
use std::sync::{Mutex, Wait};

/// The sessions of a script, and what all workers share.
#[derive(Drop)]
pub(crate) struct Sessions<'w, 't, N: MemoName> {
    pub(crate) alloc: Global,
    pub(crate) store: &'w Store<N>,
    pub(crate) memo: &'w Memo<'t, N>,
    pub(crate) script: &'w Script,
    pub(crate) shelf: &'w Mutex<Vec<Catalog>>,
    ghost tables: { script.now.tables ≡ N.tables },
}

/// A session is done with a pass that holds nothing. A job past the last session has no text.
impl<'w, 't, N: MemoName + Send + Sync> Work for Sessions<'w, 't, N> {
    ghost use Rattle.std.specs.Prelude.{◌≡◌, []};
    ghost use Rattle.bs_store.specs.Walks.{Same};
    ghost use Rattle.bs_workers.specs.Texts.{text_at};

    type Local = Pass;

    ghost answer = { λ work job. text_at work.script.now job };

    ghost good = { λ work pass. (pass.store ≡ N.table) × Same [] pass.held };

    ghost number = { λ work pass. pass.number };

    fn run<R: Wait>(&self, rt: &R, local: &mut Pass, job: usize) -> Result<Vec<u8>, AllocError> {
        if job < self.script.sessions().len() {
            self.store.named();
            write_session::<N, Brand, R>(rt, self, local, job, Blank::new(1))
        } else {
            Ok(Vec::new(self.alloc))
        }
    }
}

/// A catalog that an earlier session left, or an empty one.
fn take_catalog<R: Wait>(rt: &R, alloc: Global, shelf: &Mutex<Vec<Catalog>>) -> Catalog {
    let mut catalogs = shelf.lock(rt);
    match catalogs.pop() {
        Some(catalog) => catalog,
        None => Catalog::new(alloc),
    }
}

/// Leaves a catalog for a later session, unless memory is wanted.
fn leave_catalog<R: Wait>(rt: &R, shelf: &Mutex<Vec<Catalog>>, catalog: Catalog) {
    let mut catalogs = shelf.lock(rt);
    let _left = catalogs.push(catalog);
}

/// The head and the replies of a session, sessions counted from 0.
fn write_session<N: MemoName, L: Ledger, R: Wait>(
    rt: &R,
    work: &Sessions<'_, '_, N>,
    pass: &mut Pass,
    number: usize,
    blank: Blank,
) -> Result<Vec<u8>, AllocError>
    requires session { number < length work.now.script.now.sessions }
    requires own { pass.old.store ≡ work.now.store.now.table }
    requires name { blank.name ≡ L.name }
    requires parts { blank.parts ≡ L.parts }
    requires some { 0 < blank.parts }
    ensures text { IfOk result (λ text. text.items ≡ text_at work.now.script.now number) }
    ensures same { SamePass pass.old pass.new }
    ensures pairs { Same pass.old.held pass.new.held }
{
    prove!(number < work.script.sessions().len());
    let mut steps = Steps::<L>::new(blank);
    let mut text = Vec::new(work.alloc);
    write_line(
        &mut text,
        &Line::Head {
            number: number as u64 + 1,
        },
    )?;
    let mut catalog = take_catalog(rt, work.alloc, work.shelf);
    let replies = run_session_shared(
        rt,
        work.alloc,
        work.store,
        work.memo,
        pass,
        work.script,
        number,
        &mut catalog,
        &mut steps,
    )?;
    leave_catalog(rt, work.shelf, catalog);
    text.extend_from_slice(&replies)?;
    Ok(text)
}
