//! The cell that a path means.
ghost use Rattle.std.specs.Prelude.{◌≡◌, ◌++◌, ◌∷◌};
ghost use Rattle.std.specs.Option.{option_and_then, option_copied, option_map};
ghost use Rattle.tm_syntax.specs.Design.{DesignTree, InstanceNode, instance_node, member_path};
ghost use Rattle.tm_syntax.specs.Design.Cells.{cell, member_cell, own_cell, variable_at, variable_path};
ghost use Rattle.tm_syntax.specs.Design.Scope.{Site, site, site_along};
ghost use Rattle.tm_scope.specs.Cells.{HasCells, IsCellNumber, cell_at, scope_of};
ghost use Rattle.tm_scope.specs.Inner.CellScopes.{frame_name};
ghost use Rattle.tm_scope.specs.VariablePaths.{whole};

use crate::cells::scope::CellScope;
use crate::cells::site_body::CellNumber;
use crate::scopes::last_name;
use crate::variables::VariablePath;
use itoa::Buffer;
use tm_syntax::design::Instance;
use tm_syntax::tree::Ident;

impl<'s> CellScope<'s> {
    /// The cell that a path means, with the index of an element where there is one: a parameter or local before a
    /// variable. Linear in the path.
    pub fn cell(&self, path: &[Ident], index: Option<u64>) -> Option<CellNumber>
        ensures is_there { IsCellNumber self.now.tables self.now.at result }
        ensures cell { (d : DesignTree) → HasCells self.now.tables d →
            option_and_then (cell_at self.now.tables self.now.at) result
            ≡ cell d (scope_of self.now.at) path.now index }
    {
        match self.own_cell(path) {
            Some(own) => Some(own),
            None => self.member_cell(path, index),
        }
    }

    // The parameter or local that a path of one name means.
    fn own_cell(&self, path: &[Ident]) -> Option<CellNumber>
        ensures is_there { IsCellNumber self.now.tables self.now.at result }
        ensures cell { (d : DesignTree) → HasCells self.now.tables d →
            option_and_then (cell_at self.now.tables self.now.at) result
            ≡ option_and_then (λ s. own_cell d (scope_of self.now.at) s path.now) (site d self.now.at.instance) }
    {
        match self.slot_of(path) {
            Some(slot) => {
                if self.is_kept() {
                    self.kept_cell(last_name(path))
                } else {
                    Some(CellNumber::Step(slot))
                }
            }
            None => None,
        }
    }

    // The variable in which the parameter or local of a name is kept.
    pub(crate) fn kept_cell(&self, name: &[u8]) -> Option<CellNumber>
        ensures is_there { IsCellNumber self.now.tables self.now.at result }
        ensures cell { (d : DesignTree) → HasCells self.now.tables d →
            option_and_then (cell_at self.now.tables self.now.at) result
            ≡ option_and_then (λ s. variable_at d
            (member_path s.node.path (frame_name d self.now.at) ++ 46 ∷ name.now)) (site d self.now.at.instance) }
    {
        self.variable(VariablePath {
            base: self.node.path.as_bytes(),
            name: self.name,
            last: Some(name),
        })
    }

    // The variable or array element that a path means from the instance.
    fn member_cell(&self, path: &[Ident], index: Option<u64>) -> Option<CellNumber>
        ensures is_there { IsCellNumber self.now.tables self.now.at result }
        ensures cell { (d : DesignTree) → HasCells self.now.tables d →
            option_and_then (cell_at self.now.tables self.now.at) result
            ≡ option_and_then (λ s. member_cell d s path.now index) (site d self.now.at.instance) }
    {
        let Some(node) = self.instance_along(path) else {
            return None;
        };
        self.member(node.path.as_bytes(), last_name(path), index)
    }

    // The variable of a name of the instance of a path, or the element of an index of the array.
    fn member<'p>(&self, base: &'p [u8], name: &'p [u8], index: Option<u64>) -> Option<CellNumber>
        ensures is_there { IsCellNumber self.now.tables self.now.at result }
        ensures cell { (d : DesignTree) → HasCells self.now.tables d → (node : InstanceNode) → node.path ≡ base.now →
            option_and_then (cell_at self.now.tables self.now.at) result
            ≡ variable_at d (variable_path node name.now index) }
    {
        match index {
            Some(index) => {
                let mut buffer = Buffer::new();
                self.element(base, name, buffer.format(index).as_bytes())
            }
            None => self.variable(VariablePath {
                base,
                name,
                last: None,
            }),
        }
    }

    // The element of an index, by its digits, of the array of a name of the instance of a path.
    fn element<'p>(&self, base: &'p [u8], name: &'p [u8], digits: &'p [u8]) -> Option<CellNumber>
        ensures is_there { IsCellNumber self.now.tables self.now.at result }
        ensures cell { (d : DesignTree) → HasCells self.now.tables d →
            option_and_then (cell_at self.now.tables self.now.at) result
            ≡ variable_at d (member_path base.now name.now ++ 46 ∷ digits.now) }
    {
        self.variable(VariablePath {
            base,
            name,
            last: Some(digits),
        })
    }

    // The state variable of a path.
    fn variable(&self, path: VariablePath<'_>) -> Option<CellNumber>
        ensures is_there { IsCellNumber self.now.tables self.now.at result }
        ensures cell { (d : DesignTree) → HasCells self.now.tables d →
            option_and_then (cell_at self.now.tables self.now.at) result ≡ variable_at d (whole path.entry) }
    {
        let number = self.cells.variables().number(path)?;
        Some(CellNumber::State(number))
    }

    // The instance in which a path ends.
    fn instance_along(&self, path: &[Ident]) -> Option<&'s Instance>
        ensures { (d : DesignTree) → HasCells self.now.tables d →
            option_map instance_node (option_copied result)
            ≡ option_map (λ (s : Site). s.node)
            (option_and_then (λ s. site_along d s path.now) (site d self.now.at.instance)) }
    {
        let number = self.cells.sites().number_along(self.at.instance, path)?;
        self.cells.node(number)
    }
}
