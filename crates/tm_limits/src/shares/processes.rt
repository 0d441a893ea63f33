//! What the processes of an instance add to each count.
ghost use Rattle.std.specs.Prelude.{◌≡◌, ◌<◌, Some, length, map, slice_get};
ghost use Rattle.std.specs.List.{enumerate_from};
ghost use Rattle.tm_syntax.specs.declared.tree.Template as declared;
ghost use Rattle.tm_syntax.specs.Tree.View.{body_tree, process_tree, spec_tree, template_tree};
ghost use Rattle.tm_syntax.specs.Scopes.Context as text;
ghost use Rattle.tm_syntax.specs.Counts.Bodies.{location_bits};
ghost use Rattle.tm_limits.specs.Amount.{capped};
ghost use Rattle.tm_limits.specs.Shares.{AreTaskCounts, combination_of, process_share};
ghost use Rattle.tm_limits.specs.Totals.{over};

use crate::amount::sum;
use crate::shares::bits::locals_bits;
use crate::shares::bodies::{choices_of_body, weight_of_body};
use crate::shares::{TaskCounts, combination_of};
use crate::sizes::bits_of_number;
use crate::totals::combined;
use crate::weights::Weight;
use tm_scope::{BodyName, Scopes};
use tm_syntax::fault::Quantity;
use tm_syntax::tree::{Body, ProcessDef, Template};

/// What the processes of an instance of the template of a number add.
pub(crate) fn processes_share(
    scopes: &Scopes,
    counts: &TaskCounts,
    quantity: Quantity,
    number: usize,
    template: &Template,
) -> u64
    requires counted { AreTaskCounts (spec_tree scopes.now) counts.now }
    requires numbered { slice_get scopes.now.templates.items number ≡ Some template.now }
    ensures { result ≡ capped (over (combination_of quantity)
        (map (process_share (spec_tree scopes.now) quantity (template_tree template.now))
        (enumerate_from 0 (map process_tree template.now.processes.items)))) }
{
    let processes = template.processes.as_slice();
    let mut share = 0;
    for (index, process) in processes.iter().enumerate() {
        let own = process_share(scopes, counts, quantity, number, index, process);
        share = combined(combination_of(quantity), share, own);
    }
    share
}

// What a process adds.
fn process_share(
    scopes: &Scopes,
    counts: &TaskCounts,
    quantity: Quantity,
    number: usize,
    index: usize,
    process: &ProcessDef,
) -> u64
    requires counted { AreTaskCounts (spec_tree scopes.now) counts.now }
    requires within { number < length scopes.now.templates.items }
    ensures { (t : declared.Template) → slice_get scopes.now.templates.items number ≡ Some t → result
        ≡ capped (process_share (spec_tree scopes.now) quantity (template_tree t) (index, process_tree process.now)) }
{
    let body = &process.body;
    match quantity {
        Quantity::Statements => weight_of_body(scopes, counts, number, Weight::Statements, body),
        Quantity::Processes => 1,
        Quantity::Fairness => !process.lazy as u64,
        Quantity::State => sum(
            locals_bits(scopes, body.locals.as_slice()),
            location_bits(scopes, counts, number, body),
        ),
        Quantity::Choices => choices_of_body(
            scopes,
            counts,
            number,
            BodyName::Process(index),
            body,
        ),
        Quantity::Locations => sum(
            2,
            weight_of_body(scopes, counts, number, Weight::Locations, body),
        ),
        Quantity::Specification
        | Quantity::Name
        | Quantity::Instances
        | Quantity::Goals
        | Quantity::Tasks
        | Quantity::Arguments
        | Quantity::Atoms => 0,
    }
}

// The bits of a process's location.
fn location_bits(scopes: &Scopes, counts: &TaskCounts, number: usize, body: &Body) -> u64
    requires counted { AreTaskCounts (spec_tree scopes.now) counts.now }
    requires within { number < length scopes.now.templates.items }
    ensures { (t : declared.Template) (name : text.BodyName) → slice_get scopes.now.templates.items number ≡ Some t
        → result ≡ capped (location_bits (record {
          context = record { spec = spec_tree scopes.now; template = template_tree t; body = name };
          body = body_tree body.now;
        })) }
{
    let inside = weight_of_body(scopes, counts, number, Weight::Locations, body);
    bits_of_number(sum(1, inside))
}
