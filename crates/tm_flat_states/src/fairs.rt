//! The terms of fairness conditions.
ghost use Rattle.std.specs.Prelude.{◌≡◌, ◌<◌, ℕ, IfOk, OnOk, Some, length, map, slice_get, ◌∷◌};
ghost use Rattle.std.specs.List.{AllZip, range_with_len};
ghost use Rattle.std.specs.Option.{option_map};
ghost use Rattle.tm_syntax.specs.Design.Locations.{thread};
ghost use Rattle.tm_syntax.specs.Design.View.{design_tree};
ghost use Rattle.tm_states.specs.States.{HaveLocations};
ghost use Rattle.tm_term.specs.Table.{IsSound};
ghost use Rattle.tm_sem.specs.Fairness.{conditions, is_owed as owes, of_driver, of_process, of_text, owed};
ghost use Rattle.tm_flat.specs.Flat.{step_terms};
ghost use Rattle.tm_flat.specs.Inputs.{input_widths};
ghost use Rattle.tm_flat.specs.IsFlat.{IsFairTerm, location_numbers};
ghost use Rattle.tm_flat.specs.Steps.{IsProcessStep};
ghost use Rattle.tm_flat_states.specs.Actors.{HaveSteps, IsConditionTerm, PushesOwed, lazy_of};
ghost use Rattle.tm_flat_states.specs.Markable.{IsMarkable};
ghost use Rattle.tm_flat_states.specs.Marks.{MakesSuch};

use crate::marker::Marker;
use crate::memory::input_memory;
use std::alloc::{AllocError, Global};
use tm_flat::FlatStep;
use tm_syntax::design::{Design, Item};
use tm_term::{TermId, Terms};

// Whether a process is lazy; none where the item is no process.
fn laziness(design: &Design, process: &Item) -> Option<bool>
    ensures { (p : ℕ) → slice_get design.now.processes.items p ≡ Some process.now →
        option_map lazy_of (thread (design_tree design.now) p) ≡ result }
{
    let node = design.instances.get(process.instance as usize)?;
    let template = design.spec.templates.get(node.template as usize)?;
    let index = process.index?;
    Some(template.processes.get(index as usize)?.lazy)
}

/// Whether a process of a design, by its item, is owed its turns: it is there, and not lazy.
pub fn is_owed(design: &Design, process: &Item) -> bool
    ensures { (p : ℕ) → slice_get design.now.processes.items p ≡ Some process.now →
        result ≡ owes (design_tree design.now) p }
{
    match laziness(design, process) {
        Some(lazy) => !lazy,
        None => false,
    }
}

impl<'s> Marker<'s> {
    // The term of the driver's condition.
    fn driver(&self, alloc: Global, terms: &mut Terms) -> Result<TermId, AllocError>
        requires located { HaveLocations (design_tree self.now.design.now) self.now.locations.now }
        requires markable { IsMarkable self.now.design.now }
        requires sound { IsSound terms.old }
        requires inputs { terms.old.inputs ≡ input_widths (design_tree self.now.design.now) }
        ensures { IfOk result (MakesSuch terms.old terms.new
            (λ u id. IsConditionTerm u (design_tree self.now.design.now) of_driver id)) }
    {
        let turn = self.turn(alloc, terms)?;
        let id = self.moved_or_idle(terms, 1, turn)?;
        Ok(id)
    }

    // The term of the condition of a process.
    fn process(
        &self,
        alloc: Global,
        terms: &mut Terms,
        process: usize,
        steps: &[FlatStep],
    ) -> Result<TermId, AllocError>
        requires located { HaveLocations (design_tree self.now.design.now) self.now.locations.now }
        requires markable { IsMarkable self.now.design.now }
        requires sound { IsSound terms.old }
        requires inputs { terms.old.inputs ≡ input_widths (design_tree self.now.design.now) }
        requires process { process < length self.now.design.now.processes.items }
        requires steps { AllZip (IsProcessStep terms.old (design_tree self.now.design.now) process)
            (location_numbers (design_tree self.now.design.now) process) (map step_terms steps.now) }
        ensures { IfOk result (MakesSuch terms.old terms.new
            (λ u id. IsConditionTerm u (design_tree self.now.design.now) (of_process process) id)) }
    {
        let enabled = self.enabled(alloc, terms, process, steps)?;
        let id = self.moved_or_idle(terms, 2 + process as u64, enabled)?;
        Ok(id)
    }

    // Pushes the term of the condition of a process that is owed its turns.
    fn push_owed(
        &self,
        alloc: Global,
        terms: &mut Terms,
        ids: &mut Vec<TermId>,
        process: usize,
        steps: &[FlatStep],
    ) -> Result<(), AllocError>
        requires located { HaveLocations (design_tree self.now.design.now) self.now.locations.now }
        requires markable { IsMarkable self.now.design.now }
        requires sound { IsSound terms.old }
        requires inputs { terms.old.inputs ≡ input_widths (design_tree self.now.design.now) }
        requires process { process < length self.now.design.now.processes.items }
        requires steps { AllZip (IsProcessStep terms.old (design_tree self.now.design.now) process)
            (location_numbers (design_tree self.now.design.now) process) (map step_terms steps.now) }
        ensures { OnOk result (PushesOwed (design_tree self.now.design.now) process terms.old terms.new ids.old.items
            ids.new.items) }
    {
        let item = &self.design.processes[process];
        if !is_owed(self.design, item) {
            return Ok(());
        }
        let id = self.process(alloc, terms, process, steps)?;
        ids.push(id)?;
        Ok(())
    }

    // The terms of the conditions of the driver and of the processes that are owed their turns.
    fn actors(
        &self,
        alloc: Global,
        terms: &mut Terms,
        processes: &[Vec<FlatStep>],
    ) -> Result<Vec<TermId>, AllocError>
        requires located { HaveLocations (design_tree self.now.design.now) self.now.locations.now }
        requires markable { IsMarkable self.now.design.now }
        requires sound { IsSound terms.old }
        requires inputs { terms.old.inputs ≡ input_widths (design_tree self.now.design.now) }
        requires steps { HaveSteps terms.old (design_tree self.now.design.now) processes.now }
        ensures { IfOk result (MakesSuch terms.old terms.new (λ u ids.
            AllZip (IsConditionTerm u (design_tree self.now.design.now))
            (of_driver ∷ map of_process (owed (design_tree self.now.design.now))) ids.items)) }
    {
        let driver = self.driver(alloc, terms)?;
        let mut ids = Vec::new(alloc);
        ids.push(driver)?;
        for process in 0..self.design.processes.len() {
            self.push_owed(alloc, terms, &mut ids, process, &processes[process])?;
        }
        Ok(ids)
    }

    // The terms of the declared conditions.
    fn declared(&self, alloc: Global, terms: &mut Terms) -> Result<Vec<TermId>, AllocError>
        requires markable { IsMarkable self.now.design.now }
        requires sound { IsSound terms.old }
        requires inputs { terms.old.inputs ≡ input_widths (design_tree self.now.design.now) }
        ensures { IfOk result (MakesSuch terms.old terms.new (λ u ids.
            AllZip (IsConditionTerm u (design_tree self.now.design.now))
            (map of_text self.now.design.now.fairs.items) ids.items)) }
    {
        let memory = input_memory(alloc, terms, self.design)?;
        let ids = self.fair_terms(alloc, terms, &memory)?;
        Ok(ids)
    }

    /// For each fairness condition a term that is 1 for all bits of choices exactly where the condition holds: the
    /// driver's, those of the processes that are not lazy, and the declared ones. That a process can be picked is told
    /// by its steps. Linear in the locations, and in the conditions and the lengths of the arrays that they index.
    /// `AllocError` is want of memory.
    pub fn fairs(
        &self,
        alloc: Global,
        terms: &mut Terms,
        processes: &[Vec<FlatStep>],
    ) -> Result<Vec<TermId>, AllocError>
        requires located { HaveLocations (design_tree self.now.design.now) self.now.locations.now }
        requires markable { IsMarkable self.now.design.now }
        requires sound { IsSound terms.old }
        requires inputs { terms.old.inputs ≡ input_widths (design_tree self.now.design.now) }
        requires steps { HaveSteps terms.old (design_tree self.now.design.now) processes.now }
        ensures { IfOk result (MakesSuch terms.old terms.new (λ u ids.
            AllZip (IsFairTerm u (design_tree self.now.design.now))
            (range_with_len 0 (length (conditions (design_tree self.now.design.now)))) ids.items)) }
    {
        let mut ids = self.actors(alloc, terms, processes)?;
        let declared = self.declared(alloc, terms)?;
        ids.extend_from_slice(declared.as_slice())?;
        Ok(ids)
    }
}
