//! What the bodies of processes and tasks add.
ghost use Rattle.std.specs.Prelude.{◌≡◌, ◌<◌, Some, length, slice_get, suc};
ghost use Rattle.tm_syntax.specs.declared.tree.Template as declared;
ghost use Rattle.tm_syntax.specs.Tree.{SpecTree};
ghost use Rattle.tm_syntax.specs.Tree.View.{body_tree, spec_tree, template_tree};
ghost use Rattle.tm_syntax.specs.Scopes.Context as text;
ghost use Rattle.tm_syntax.specs.Scopes.Pauses.{call_depth};
ghost use Rattle.tm_syntax.specs.Counts.Bodies as weighed;
ghost use Rattle.tm_syntax.specs.Counts.Choices.{body_paths, path_sums};
ghost use Rattle.tm_syntax.specs.Counts.Instances.{greatest};
ghost use Rattle.tm_scope.specs.Context.{body_name};
ghost use Rattle.tm_limits.specs.Amount.{capped};
ghost use Rattle.tm_limits.specs.Inner.Weights.{weight_of};
ghost use Rattle.tm_limits.specs.Shares.{AreTaskCounts};
ghost use Rattle.tm_limits.specs.TaskBodies.{HasWeights};

use crate::choices::{CallPaths, body_paths};
use crate::shares::TaskCounts;
use crate::weights::{CallWeights, Weight, body_weight};
use indexmap::IndexMap;
use tm_scope::{BodyName, Scopes};
use tm_syntax::member::Member;
use tm_syntax::tree::Body;

/// What a body of the template of a number weighs, with called bodies at each call.
pub(crate) fn weight_of_body(
    scopes: &Scopes,
    counts: &TaskCounts,
    number: usize,
    weight: Weight,
    body: &Body,
) -> u64
    requires counted { AreTaskCounts (spec_tree scopes.now) counts.now }
    requires within { number < length scopes.now.templates.items }
    ensures { (t : declared.Template) (name : text.BodyName) → slice_get scopes.now.templates.items number ≡ Some t
        → result ≡ capped (weighed.weight_of (weight_of weight) (record {
          context = record { spec = spec_tree scopes.now; template = template_tree t; body = name };
          body = body_tree body.now;
        })) }
{
    let weights = weights_of(counts, weight);
    body_weight(&CallWeights::new(scopes, number, weight, weights), body)
}

// The weights of all tasks.
fn weights_of<'c>(counts: &'c TaskCounts, weight: Weight) -> &'c IndexMap<Member, u64>
    ensures { (spec : SpecTree) (counted : AreTaskCounts spec counts.now)
        → HasWeights spec (weight_of weight) counted.order (length counted.order) result.now.entries }
{
    match weight {
        Weight::Statements => &counts.statements,
        Weight::Locations => &counts.locations,
    }
}

/// The greatest number of choice bits on one path of a body of the template of a number.
pub(crate) fn choices_of_body(
    scopes: &Scopes,
    counts: &TaskCounts,
    number: usize,
    name: BodyName,
    body: &Body,
) -> u64
    requires counted { AreTaskCounts (spec_tree scopes.now) counts.now }
    requires within { number < length scopes.now.templates.items }
    ensures { (t : declared.Template) → slice_get scopes.now.templates.items number ≡ Some t
        → result ≡ capped (greatest (path_sums (body_paths (suc (call_depth (spec_tree scopes.now))) (record {
          context = record { spec = spec_tree scopes.now; template = template_tree t; body = body_name name };
          body = body_tree body.now;
        })))) }
{
    body_paths(&CallPaths::new(scopes, number, name, &counts.paths), body).greatest()
}
