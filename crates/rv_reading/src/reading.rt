//! The control reading of a flat system.

ghost use Rattle.std.specs.Prelude.{◌≡◌, ◌↔◌, ◌<◌, ◌≤◌, ◌^◌, ℕ, ℤ, Bool, List, Ok, None, Some, false, [], All, length, slice_get, IfOk, IfSome, OnOk, IsErrOf, IsTrue};
ghost use Rattle.std.specs.Int.RustNames.{unsigned_abs};
ghost use Rattle.std.specs.Borrow.{sem};
ghost use Rattle.rv_diagram.specs.declared.frozen.Frozen.{Frozen as FrozenModel};
ghost use Rattle.rv_diagram.specs.Growing.{Extends};
ghost use Rattle.rv_tree.specs.Tree.{ProgramTree};
ghost use Rattle.rv_tree.specs.Places.{Identifier};
ghost use Rattle.rv_types.specs.Instances.{IsNode};
ghost use Rattle.rv_types.specs.WellFormed.{AreWell};
ghost use Rattle.rv_flat.specs.FlatOf.{IsFlatOf};
ghost use Rattle.rv_proofs.specs.Cases.{IsCase, AreCases, IsImage, IsPreimage, IsInitialSet};
ghost use Rattle.rv_proofs.specs.Ranges.{IsControlSet, IsInRange};
ghost use Rattle.rv_proofs.specs.Accepted.{IsAccepted};
ghost use Rattle.rv_proofs.specs.Reached.{HasNoIntegers, IsLeastClosed, AreLayers};
ghost use Rattle.rv_proofs.specs.Runs.{IsSafeSystem};
ghost use Rattle.rv_proofs.specs.Boxes.{BoxClaim, HasGoodBox};
ghost use Rattle.rv_proofs.specs.RowClaims.{HasGoodRows};
ghost use Rattle.rv_proofs.specs.Left.{IsLeftReport};
ghost use Rattle.rv_proofs.specs.declared.report.LeftReport.{LeftReport as LeftModel};
ghost use Rattle.rv_proofs.specs.Counts.{HasFree};
ghost use Rattle.rv_proofs.specs.Verdicts.{IsVerdict};
ghost use Rattle.rv_proofs.specs.declared.certificate.Certificate.{Certificate as CertificateModel};
ghost use Rattle.rv_control.specs.Control.{control_of};
ghost use Rattle.rv_cases.specs.Questions.{AreQuestions, AreDistinct};
ghost use Rattle.rv_cases.specs.Made.{AreDifferent};
ghost use Rattle.rv_symbolic.specs.Represented.{AreParts, HaveRefs};
ghost use Rattle.rv_proofs.specs.declared.report.Layers.{Layers as LayersModel};
ghost use Rattle.rv_paths.specs.Candidates.{IsCandidateOf, IsInRange as HasTraceNumbers};
ghost use Rattle.rv_walk.specs.Ends.{IsGoodCertificate, AreBadLayers, IsGoodEnd};
ghost use Rattle.rv_walk.specs.Plain.{ArePlain};
ghost use Rattle.rv_walk.specs.Paths.{IsFalsifyingPath, IsShortestPath};
ghost use Rattle.rv_open.specs.Columns.{HasNoColumns, AreLeastBadLayers};
ghost use Rattle.rv_reading.specs.Analysing.{IsProved};
ghost use Rattle.rv_reading.specs.Lending.{LendsStore};
ghost use Rattle.rv_reading.specs.Read.{flat_of, system_read, diagrams_of, IsRead};

use crate::analysis::{analysed, at_most};
use crate::candidates::candidate_or_none;
use crate::ending::Analysis;
use rv_accept::accept;
use rv_base::Many;
use rv_bits::{Around, ReadSystem, read_system};
use rv_cases::{Questions, cases};
use rv_control::{computed_instants, control_is_a_system};
use rv_diagram::{Frozen, Store, StoreFault};
use rv_flat::Flat;
use rv_least::box_pass;
use rv_open::open_path;
use rv_paths::Candidate;
use rv_proofs::{Case, Certificate, Layers, Verdict};
use rv_symbolic::{Parts, Relation, relation_stays};
use rv_tested::ask_system;
use rv_walk::{BoxEnd, walk};
use std::alloc::Global;

/// The control reading of a flat system: its control as diagrams in a store of its own, and the questions by which its cases are split:
/// which row each order test has, which form each integer memory becomes, whether the observer is true. Sets and cases that are handed in, and those that
/// it answers, are ordered, and use state variables only, or no next copies. After a fault it is as before.
#[derive(Drop)]
pub struct Reading<'a> {
    flat: &'a Flat,
    store: Store,
    relation: Relation,
    questions: Questions,
    alloc: Global,
}

/// What is read of a flat system: the references of its control, and its questions.
#[derive(Debug, Drop)]
struct Asked {
    parts: Parts,
    questions: Questions,
}

/// Reads a flat system. Each flow, each body of a memory and each assertion is read once. After a fault nodes may be left.
fn read_control(alloc: Global, store: &mut Store, flat: &Flat) -> Result<Asked, StoreFault>
    requires program { (program : ProgramTree) × (main : Identifier) × AreWell program × IsNode program main × IsFlatOf program main flat.now }
    requires variables { store.old.variables ≡ length flat.now.variables }
    ensures refs { IfOk result (λ a. HaveRefs store.new a.parts) }
    ensures parts { IfOk result (λ a. AreParts (control_of flat.now) store.new a.parts) }
    ensures questions { IfOk result (λ a. AreQuestions (control_of flat.now) store.new a.questions × AreDistinct a.questions) }
    ensures extends { OnOk result (Extends store.old store.new) }
    ensures roomy { IsErrOf result StoreFault.Nodes → store.old.limit < 2 ^ (2 ^ store.old.variables) }
{
    control_is_a_system();
    computed_instants();
    relation_stays();
    let ReadSystem {
        parts,
        tables,
        read,
        mut shown,
    } = read_system(alloc, store, flat)?;
    let around = Around {
        flat,
        tables: &tables,
        read: &read,
    };
    let questions = ask_system(alloc, store, &around, &mut shown, parts.observer)?;
    Ok(Asked { parts, questions })
}

impl<'a> Reading<'a> {
    /// The control reading of the flat system of a well formed program, in a store for at most `nodes` nodes. Each flow, each body
    /// of a memory and each assertion is read once.
    pub fn new(alloc: Global, flat: &'a Flat, nodes: u32) -> Result<Reading<'a>, StoreFault>
        requires nodes { nodes ≤ 33554432 }
        requires program { (program : ProgramTree) × (main : Identifier) × AreWell program × IsNode program main × IsFlatOf program main flat.now }
        ensures read { IfOk result IsRead }
        ensures flat { IfOk result (λ r. flat_of r ≡ flat.now) }
        ensures limit { IfOk result (λ r. (diagrams_of r).limit ≡ nodes) }
        ensures variables { IfOk result (λ r. (diagrams_of r).variables ≡ length flat.now.variables) }
        ensures roomy { IsErrOf result StoreFault.Nodes → nodes < 2 ^ (2 ^ length flat.now.variables) }
    {
        control_is_a_system();
        let mut store = Store::new(alloc, flat.variables.len() as u32, nodes)?;
        let Asked { parts, questions } = read_control(alloc, &mut store, flat)?;
        let relation = Relation::new(alloc, &mut store, parts)?;
        Ok(Reading {
            flat,
            store,
            relation,
            questions,
            alloc,
        })
    }

    /// The cases of a set of control states: each allowed valuation whose control state is in the set is in exactly one condition, and
    /// no other valuation is in any. No condition is empty, and no two cases have the same tests, rows, updates and observer. They are
    /// split by the order tests first, then by the updates, then by the observer.
    pub fn cases(&mut self, from: &Frozen) -> Result<Many<Case>, StoreFault>
        requires read { IsRead self.old }
        requires from { IsControlSet (system_read self.old) from.now }
        ensures parted { IfOk result (AreCases (system_read self.old) from.now) }
        ensures different { IfOk result AreDifferent }
        ensures same { self.new ≡ self.old }
        ensures roomy { IsErrOf result StoreFault.Nodes → (diagrams_of self.old).limit < 2 ^ (2 ^ (diagrams_of self.old).variables) }
    {
        let allowed = self.relation.parts().allowed;
        cases(self.alloc, &mut self.store, allowed, &self.questions, from)
    }

    /// The verdict on a certificate with the counts and ranges of a document, in which a location without a loop has empty `first` and
    /// `around`: Accepted exactly where it is accepted for the system of the flat system, and otherwise the first reason, with the least
    /// valuation or control state that fails.
    pub fn accept(
        &mut self,
        alloc: Global,
        certificate: &Certificate,
    ) -> Result<Verdict, StoreFault>
        requires read { IsRead self.old }
        requires range { IsInRange (system_read self.old) certificate.now }
        requires free { HasFree certificate.now }
        ensures exact { IfOk result (IsVerdict (system_read self.old) certificate.now) }
        ensures same { self.new ≡ self.old }
        ensures roomy { IsErrOf result StoreFault.Nodes → (diagrams_of self.old).limit < 2 ^ (2 ^ (diagrams_of self.old).variables) }
    {
        let parts = self.relation.parts();
        accept(alloc, &mut self.store, parts, &self.questions, certificate)
    }

    /// Exactly the next control states of the case's valuations from a set.
    pub fn image(&mut self, from: &Frozen, case: &Case) -> Result<Frozen, StoreFault>
        requires read { IsRead self.old }
        requires from { IsControlSet (system_read self.old) from.now }
        requires case { IsCase (system_read self.old) case.now }
        ensures exact { IfOk result (IsImage (system_read self.old) from.now case.now) }
        ensures same { self.new ≡ self.old }
        ensures roomy { IsErrOf result StoreFault.Nodes → (diagrams_of self.old).limit < 2 ^ (2 ^ (diagrams_of self.old).variables) }
    {
        self.relation.image(&mut self.store, from, case)
    }

    /// Exactly the control states of the case with a valuation that leads into a set.
    pub fn preimage(&mut self, to: &Frozen, case: &Case) -> Result<Frozen, StoreFault>
        requires read { IsRead self.old }
        requires to { IsControlSet (system_read self.old) to.now }
        requires case { IsCase (system_read self.old) case.now }
        ensures exact { IfOk result (IsPreimage (system_read self.old) to.now case.now) }
        ensures same { self.new ≡ self.old }
        ensures roomy { IsErrOf result StoreFault.Nodes → (diagrams_of self.old).limit < 2 ^ (2 ^ (diagrams_of self.old).variables) }
    {
        self.relation.preimage(&mut self.store, to, case)
    }

    /// The initial control states: all tick bits false, every code a label.
    pub fn initial(&mut self) -> Result<Frozen, StoreFault>
        requires read { IsRead self.old }
        ensures exact { IfOk result (IsInitialSet (system_read self.old)) }
        ensures same { self.new ≡ self.old }
        ensures roomy { IsErrOf result StoreFault.Nodes → (diagrams_of self.old).limit < 2 ^ (2 ^ (diagrams_of self.old).variables) }
    {
        Ok(self.relation.initial(&self.store)?)
    }

    /// The walk through the layers of control states of a flat system without integers: how it ends.
    pub fn walk(&mut self, alloc: Global) -> Result<BoxEnd, StoreFault>
        requires read { IsRead self.old }
        requires control { HasNoIntegers (system_read self.old) }
        ensures good { (c : CertificateModel) → result ≡ Ok (BoxEnd.Good c) → IsGoodCertificate (system_read self.old) c }
        ensures plain { (c : CertificateModel) → result ≡ Ok (BoxEnd.Good c) → ArePlain c }
        ensures bad { (l : LayersModel) → result ≡ Ok (BoxEnd.Bad l) → AreBadLayers (system_read self.old) l }
        ensures exactly { (thresholds : List ℤ) → IfOk result (λ e. IsGoodEnd e ↔ HasGoodBox (system_read self.old) thresholds) }
        ensures decides { IfOk result (λ e. IsGoodEnd e ↔ IsSafeSystem (system_read self.old)) }
        ensures same { self.new ≡ self.old }
        ensures roomy { IsErrOf result StoreFault.Nodes → (diagrams_of self.old).limit < 2 ^ (2 ^ (diagrams_of self.old).variables) }
    {
        walk(alloc, &mut self.store, &self.relation)
    }

    /// The box pass over the flat system, with bounds among its thresholds: how it ends. Good has an accepted certificate without loops,
    /// and comes exactly where some closed box claim is good. Bad has the layers of the least closed claim.
    pub fn box_pass(&mut self, alloc: Global) -> Result<BoxEnd, StoreFault>
        requires read { IsRead self.old }
        requires thresholds { All (λ t. unsigned_abs t ≤ 2 ^ 41) (flat_of self.old).thresholds }
        ensures good { (c : CertificateModel) → result ≡ Ok (BoxEnd.Good c) → IsAccepted (system_read self.old) c }
        ensures plain { (c : CertificateModel) → result ≡ Ok (BoxEnd.Good c) → ArePlain c }
        ensures exactly { IfOk result (λ e. IsGoodEnd e ↔ HasGoodBox (system_read self.old) (flat_of self.old).thresholds) }
        ensures bad { (l : LayersModel) → result ≡ Ok (BoxEnd.Bad l) → (c : BoxClaim)
            × IsLeastClosed (system_read self.old) (flat_of self.old).thresholds c × AreLayers (system_read self.old) c l.sets }
        ensures same { self.new ≡ self.old }
        ensures roomy { IsErrOf result StoreFault.Nodes → (diagrams_of self.old).limit < 2 ^ (2 ^ (diagrams_of self.old).variables) }
    {
        let thresholds = self.flat.thresholds.as_slice();
        let columns = self.flat.columns.len();
        box_pass(
            alloc,
            &mut self.store,
            &self.relation,
            &self.questions,
            thresholds,
            columns,
        )
    }

    /// What is proved of the flat system: of its least closed row claim, with bounds among its thresholds, where that is good, and else of rows over
    /// parts of the control states. Proved has an accepted certificate, without loops where none are asked for, and comes wherever some closed row
    /// claim is good. Left has a left partition without rows and loops: it has so many locations and more were not to be made, or each left
    /// location has one control state. The bits of ticks, by which parts are told apart first, are that of the main tick, which is the first state
    /// bit, and those of the flows that tick.
    pub fn analyse(
        &mut self,
        alloc: Global,
        locations: u32,
        accelerate: bool,
    ) -> Result<Analysis, StoreFault>
        requires read { IsRead self.old }
        requires thresholds { All (λ t. unsigned_abs t ≤ 2 ^ 41) (flat_of self.old).thresholds }
        requires least { 1 ≤ locations }
        requires most { locations ≤ 4096 }
        ensures proved { (c : CertificateModel) → result ≡ Ok (Analysis.Proved c) → IsAccepted (system_read self.old) c }
        ensures plain { (c : CertificateModel) → result ≡ Ok (Analysis.Proved c) → accelerate ≡ false → ArePlain c }
        ensures left { (l : LeftModel) → result ≡ Ok (Analysis.Left l) → IsLeftReport (system_read self.old) locations l }
        ensures plain_left { (l : LeftModel) → result ≡ Ok (Analysis.Left l) → ArePlain l.partition }
        ensures claims { HasGoodRows (system_read self.old) (flat_of self.old).thresholds → IfOk result IsProved }
        ensures same { self.new ≡ self.old }
        ensures roomy { IsErrOf result StoreFault.Nodes → (diagrams_of self.old).limit < 2 ^ (2 ^ (diagrams_of self.old).variables) }
    {
        let thresholds = self.flat.thresholds.as_slice();
        let ticks = at_most(self.flat.tick_flows.len(), 4095) + 1;
        let store = &mut self.store;
        let relation = &self.relation;
        let questions = &self.questions;
        analysed(
            alloc, store, relation, questions, thresholds, ticks, locations, accelerate,
        )
    }

    /// A candidate for a trace that falsifies the program of the flat system: a word for each instant, with a truth value for each variable of the
    /// flat system, a start value for each integer memory, and a number for each integer input at each instant, all of them numbers that a trace
    /// may have. That it falsifies is for its replay to show, and None promises nothing. Layers are sets of control states, in which the path
    /// stays after its first instant. None comes too where the diagrams outgrow their limit on the way. The reading is left as it was. `Memory` comes
    /// where memory runs out.
    pub fn candidate(
        &mut self,
        alloc: Global,
        layers: &Layers,
    ) -> Result<Option<Candidate>, StoreFault>
        requires read { IsRead self.old }
        requires sets { (t : ℕ) (set : FrozenModel) → slice_get layers.now.sets t ≡ Some set → IsControlSet (system_read self.old) set }
        ensures shape { IfOk result (λ o. IfSome o (IsCandidateOf (system_read self.old))) }
        ensures range { IfOk result (λ o. IfSome o HasTraceNumbers) }
        ensures same { self.new ≡ self.old }
        ensures roomy { IsErrOf result StoreFault.Nodes → (diagrams_of self.old).limit < 2 ^ (2 ^ (diagrams_of self.old).variables) }
        ensures never { IsErrOf result StoreFault.Nodes → ⊥ }
    {
        let columns = self.flat.columns.len();
        candidate_or_none(
            alloc,
            &mut self.store,
            &self.relation,
            &self.questions,
            columns,
            layers,
        )
    }

    /// A run of the system of a flat system without integer memories and inputs, along which the assertions hold and at whose last instant
    /// the observer is false for the first time, found back through the layers. Constants may be compared. One word for each instant, with a
    /// truth value for each variable of the flat system; those of next copies mean nothing. The first layer is taken as that of the initial
    /// control states. Where the layers are those of the least closed claim, which is not good, some run is found, and none has fewer instants.
    pub fn falsifying_path(
        &mut self,
        alloc: Global,
        layers: &Layers,
    ) -> Result<Option<Many<Many<bool>>>, StoreFault>
        requires read { IsRead self.old }
        requires columns { HasNoColumns (system_read self.old) }
        requires sets { (t : ℕ) (set : FrozenModel) → slice_get layers.now.sets t ≡ Some set → IsControlSet (system_read self.old) set }
        ensures falsifies { (words : List (List Bool)) → result ≡ Ok (Some words) → IsFalsifyingPath (system_read self.old) words }
        ensures shortest { (thresholds : List ℤ) (words : List (List Bool)) → AreLeastBadLayers (system_read self.old) thresholds layers.now
            → result ≡ Ok (Some words) → IsShortestPath (system_read self.old) words }
        ensures found { (thresholds : List ℤ) → AreLeastBadLayers (system_read self.old) thresholds layers.now
            → IfOk result (λ path. path ≡ None → ⊥) }
        ensures same { self.new ≡ self.old }
        ensures roomy { IsErrOf result StoreFault.Nodes → (diagrams_of self.old).limit < 2 ^ (2 ^ (diagrams_of self.old).variables) }
    {
        let questions = &self.questions;
        open_path(alloc, &mut self.store, &self.relation, questions, layers)
    }

    /// The flat system.
    pub fn flat(&self) -> &Flat
        ensures { result.now ≡ flat_of self.now }
    {
        self.flat
    }

    /// Whether the flat system has no integers: no columns and no order tests.
    pub fn has_no_integers(&self) -> bool
        requires { IsRead self.now }
        ensures { IsTrue result ↔ HasNoIntegers (system_read self.now) }
    {
        self.flat.columns.is_empty() && self.questions.rows.is_empty()
    }

    /// Whether the flat system has no columns: no integer memories and no integer inputs.
    pub fn has_no_columns(&self) -> bool
        requires { IsRead self.now }
        ensures { IsTrue result ↔ HasNoColumns (system_read self.now) }
    {
        self.flat.columns.is_empty()
    }

    /// How many state bits there are.
    pub fn state_bits(&self) -> u32
        requires { IsRead self.now }
        ensures { result ≡ (system_read self.now).states }
    {
        self.relation.state_bits()
    }

    /// How many nodes the store has.
    pub fn held(&self) -> u32
        ensures { result ≡ length (diagrams_of self.now).nodes }
    {
        self.store.mark()
    }

    /// How many nodes the store may have.
    pub fn limit(&self) -> u32
        ensures { result ≡ (diagrams_of self.now).limit }
    {
        self.store.limit()
    }

    /// The store. Whoever takes it gives it back with the list, the limit and the number of variables that it had, and then the reading
    /// is as it was.
    pub fn store(&mut self) -> &mut Store
        ensures* lends { sem 𝓛 (LendsStore self.entry result) }
        ensures is { result.now ≡ diagrams_of self.old }
    {
        &mut self.store
    }
}
