//! What a path leads to.
ghost use Rattle.std.specs.Prelude.{◌≡◌, ◌<◌, IfOk, length};
ghost use Rattle.std.specs.Option.{option_map};
ghost use Rattle.tm_syntax.specs.Tree as tree;
ghost use Rattle.tm_syntax.specs.Tree.View.{spec_tree};
ghost use Rattle.tm_syntax.specs.Scopes.Declared as text;
ghost use Rattle.tm_names.specs.Sorts.{sort_of};
ghost use Rattle.tm_names.specs.Meanings.{meaning_of};
ghost use Rattle.tm_names.specs.Inner.Meanings.{meaning_from, step_meaning};

use crate::names::text_names::TextNames;
use crate::sorts::Sort;
use tm_syntax::tree::Ident;

/// What a path leads to.
#[derive(Clone, Copy)]
pub enum Meaning<'a> {
    /// No declaration gives this name in its scope.
    Unknown(&'a Ident),
    /// This name leads no further, and is not the last.
    Misplaced(&'a Ident),
    /// The path leads through an instance or port whose template is none.
    Unclear,
    /// The last name is declared as this.
    Means(&'a Ident, Sort<'a>),
}

// The number of the template into which a name of this sort leads on, or what the path then means.
fn leading_on<'a>(
    names: &TextNames<'a>,
    name: &'a Ident,
    sort: Option<Sort<'a>>,
) -> Result<usize, Meaning<'a>>
    ensures leads { (onward : tree.TemplateTree → text.Meaning)
        → text.leading_on (spec_tree names.now) onward name.now (option_map sort_of sort.entry)
        ≡ step_meaning (spec_tree names.now) onward result }
    ensures within { IfOk result (λ number. number < length names.now.templates.items) }
{
    match sort {
        None => Err(Meaning::Unknown(name)),
        Some(Sort::Neighbor(template)) => match names.template_number(template.text.as_bytes()) {
            Some(number) => Ok(number),
            None => Err(Meaning::Unclear),
        },
        Some(_) => Err(Meaning::Misplaced(name)),
    }
}

// What the last name of a path means, of this sort.
fn last_meaning<'a>(name: &'a Ident, sort: Option<Sort<'a>>) -> Meaning<'a>
    ensures { meaning_of result ≡ text.last_meaning name.now (option_map sort_of sort.entry) }
{
    match sort {
        Some(sort) => Meaning::Means(name, sort),
        None => Meaning::Unknown(name),
    }
}

/// What a path means whose first name is of this sort. Linear in the path.
pub(crate) fn meaning_from<'a>(
    names: &TextNames<'a>,
    path: &'a [Ident],
    first: Option<Sort<'a>>,
) -> Meaning<'a>
    requires { 0 < length path.now }
    ensures { meaning_of result ≡ meaning_from (spec_tree names.now) (option_map sort_of first.entry) path.now }
{
    let mut sort = first;
    for index in 1..path.len() {
        match leading_on(names, &path[index - 1], sort) {
            Ok(number) => sort = names.member_sort(number, path[index].text.as_bytes()),
            Err(meaning) => return meaning,
        }
    }
    last_meaning(&path[path.len() - 1], sort)
}
