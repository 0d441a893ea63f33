//! What names are declared as in a text and among the members of its templates.
ghost use Rattle.std.specs.Prelude.{
  ◌≡◌,
  ◌<◌,
  ◌&&◌,
  ℕ,
  IfOk,
  IfSome,
  List,
  None,
  OnOk,
  Some,
  is_some,
  length,
  slice_get,
  if◌then◌else◌,
};
ghost use Rattle.std.specs.Option.{option_and_then, option_copied, option_map, option_or};
ghost use Rattle.tm_syntax.specs.Tree as tree;
ghost use Rattle.tm_syntax.specs.Tree.View.{spec_tree};
ghost use Rattle.tm_syntax.specs.Scopes.Declared as text;
ghost use Rattle.tm_syntax.specs.Scopes.Names.{is_spelled};
ghost use Rattle.tm_scope.specs.Directory.{index_of};
ghost use Rattle.tm_names.specs.Sorts.{declared_of, sort_of};
ghost use Rattle.tm_names.specs.ScopeNames.{IsScope};
ghost use Rattle.tm_names.specs.TextScopes.{AreTemplateScopes, AreTextScopes};
ghost use Rattle.tm_names.specs.Inner.TemplateNumbers.{AreFirstTemplates, is_same_place, stands_first};

use crate::places::is_before;
use crate::scopes::{Scope, TemplateScopes, TextScopes};
use crate::sorts::{Declared, Sort};
use std::alloc::{AllocError, Global};
use std::marker::Model;
use tm_base::Place;
use tm_scope::{Directory, Scopes};
use tm_syntax::tree::{Ident, Spec};

/// What the names of a text are declared as, and the numbers of its templates by their names.
///
/// Contracts see the specification.
#[derive(Drop)]
pub struct TextNames<'a> {
    spec: &'a Spec,
    tables: &'a Scopes<'a>,
    scopes: &'a TextScopes<'a>,
    // Of each name the number of the first template that stands where the name is first declared.
    numbers: Directory<'a>,
}

impl<'a> Model for TextNames<'a> {
    ghost use Rattle.std.specs.Coded.{codes};
    ghost use Rattle.tm_syntax.specs.declared.tree.Spec.{Spec};
    ghost use Rattle.tm_syntax.specs.contracts.tree.Spec as spec_contract;
    ghost use Rattle.tm_names.specs.Inner.TemplateNumbers.{AreTextNames};

    ghost Value = { Spec };

    ghost view = { λ x. x.spec.now };

    ghost invariant = { λ x. AreTextNames x.spec.now x.tables.now x.scopes.now x.numbers };

    ghost coded = { Prim.hlevel (codes, spec_contract.the_row.coded) };
}

// The element of an index.
pub(crate) fn nth<T>(items: &[T], index: usize) -> Option<&T>
    ensures { option_copied result ≡ slice_get items.now index }
{
    items.get(index)
}

// The sort of what is found.
pub(crate) fn found_sort<'a>(found: Option<Declared<'a>>) -> Option<Sort<'a>>
    ensures { option_map sort_of result ≡ option_map (λ d. d.sort) (option_map declared_of found.entry) }
{
    match found {
        Some(declared) => Some(declared.sort),
        None => None,
    }
}

// Whether this is a template.
fn is_template(sort: Option<Sort>) -> bool
    ensures { result ≡ is_some (text.template_in (option_map sort_of sort.entry)) }
{
    match sort {
        Some(Sort::Template(_, _)) => true,
        _ => false,
    }
}

// A number, if a test is passed.
fn number_if(passes: bool, number: Option<usize>) -> Option<usize>
    ensures { result ≡ (if passes then number else None) }
{
    if passes { number } else { None }
}

// Whether two places are one.
fn is_same_place(a: Place, b: Place) -> bool
    ensures { result ≡ is_same_place a b }
{
    !is_before(a, b) && !is_before(b, a)
}

// Whether a name stands where it is first declared in a text of this scope.
fn stands_first(scope: &Scope, name: &Ident) -> bool
    ensures { (spec : tree.SpecTree) → IsScope scope.now (text.text_names spec)
        → result ≡ stands_first spec name.now }
{
    match scope.names.find(name.text.as_bytes()) {
        Some(first) => is_same_place(first.name.place, name.place),
        None => false,
    }
}

// Notes a name at the number of its template, if it stands where it is first declared. A name that has one keeps it.
fn note_template<'a>(
    numbers: &mut Directory<'a>,
    scope: &Scope,
    name: &'a Ident,
    number: usize,
) -> Result<(), AllocError>
    ensures { OnOk result ((spec : tree.SpecTree) → IsScope scope.now (text.text_names spec) → (other : List ℕ)
        → index_of numbers.new other ≡ option_or (index_of numbers.old other)
        (if is_spelled other name.now && stands_first spec name.now then Some number else None)) }
{
    if !stands_first(scope, name) {
        return Ok(());
    }
    numbers.note(name.text.as_bytes(), number)?;
    Ok(())
}

// The numbers of the templates that stand where their names are first declared, by these names.
fn template_numbers<'a>(
    alloc: Global,
    spec: &'a Spec,
    scope: &Scope,
) -> Result<Directory<'a>, AllocError>
    requires { IsScope scope.now (text.text_names (spec_tree spec.now)) }
    ensures { IfOk result (AreFirstTemplates spec.now) }
{
    let mut numbers = Directory::new(alloc);
    for (number, template) in spec.templates.as_slice().iter().enumerate() {
        note_template(&mut numbers, scope, &template.name, number)?;
    }
    Ok(numbers)
}

impl<'a> TextNames<'a> {
    /// The names of a text, given its tables and scopes. Linear in its templates. `AllocError` is want of memory.
    pub fn new(
        alloc: Global,
        spec: &'a Spec,
        tables: &'a Scopes<'a>,
        scopes: &'a TextScopes<'a>,
    ) -> Result<TextNames<'a>, AllocError>
        requires tables { tables.now ≡ spec.now }
        requires scopes { AreTextScopes (spec_tree spec.now) scopes.now }
        ensures { IfOk result (λ names. names ≡ spec.now) }
    {
        let numbers = template_numbers(alloc, spec, &scopes.text)?;
        Ok(TextNames {
            spec,
            tables,
            scopes,
            numbers,
        })
    }

    /// The tables of the text.
    pub fn tables(&self) -> &'a Scopes<'a>
        ensures { result.now ≡ self.now }
    {
        self.tables
    }

    /// What a name of the text is declared as.
    pub fn text_sort(&self, name: &[u8]) -> Option<Sort<'a>>
        ensures { option_map sort_of result ≡ text.text_sort (spec_tree self.now) name.now }
    {
        found_sort(self.scopes.text.names.find(name))
    }

    /// The number of the template that a name of the text is declared as.
    pub(crate) fn template_number(&self, name: &[u8]) -> Option<usize>
        ensures number { option_and_then (slice_get (spec_tree self.now).templates) result
            ≡ text.template_in (text.text_sort (spec_tree self.now) name.now) }
        ensures within { IfSome result (λ k. k < length self.now.templates.items) }
    {
        number_if(is_template(self.text_sort(name)), self.numbers.find(name))
    }

    /// The scopes of the template of a number.
    pub(crate) fn template_scopes(&self, number: usize) -> &'a TemplateScopes<'a>
        requires { number < length self.now.templates.items }
        ensures { (t : tree.TemplateTree) → slice_get (spec_tree self.now).templates number ≡ Some t
            → AreTemplateScopes t result.now }
    {
        &self.scopes.templates[number]
    }

    /// What a name is declared as among the members of the template of a number.
    pub(crate) fn member_sort(&self, number: usize, name: &[u8]) -> Option<Sort<'a>>
        ensures { (t : tree.TemplateTree) → slice_get (spec_tree self.now).templates number ≡ Some t
            → option_map sort_of result ≡ text.sort_in (text.members t) name.now }
    {
        match nth(self.scopes.templates.as_slice(), number) {
            Some(scopes) => found_sort(scopes.members.names.find(name)),
            None => None,
        }
    }
}
