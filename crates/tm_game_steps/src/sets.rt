//! Sets of valid states that terms tell.
ghost use Rattle.std.specs.Prelude.{All, IfOk};
ghost use Rattle.tm_dd.specs.Reduced.{Extends};
ghost use Rattle.tm_dd.specs.Table.{Knows, means};
ghost use Rattle.tm_flat.specs.Steps.{IsTerm};
ghost use Rattle.tm_game_bits.specs.Diagrams.{IsSetOf};
ghost use Rattle.tm_game_steps.specs.Sets.{AreSets, IsAlwaysOneIn, IsOneIn};
ghost use Rattle.tm_game_steps.specs.Setting.{IsReady, setting_of};

use crate::encoding::Encoding;
use std::alloc::AllocError;
use tm_base::Steps;
use tm_blast::TermBits;
use tm_dd::NodeId;
use tm_ddops::Manager;
use tm_term::TermId;

impl Encoding {
    /// Where a diagram is true and a term is 1. Every id keeps its meaning, also where memory runs out.
    pub fn set(
        &self,
        valid: NodeId,
        id: TermId,
        made: &mut TermBits,
        dd: &mut Manager,
    ) -> Result<NodeId, AllocError>
        requires valid { Knows dd.old.table valid }
        requires term { IsTerm self.now.terms 1 id }
        requires ready { IsReady (setting_of self.now) dd.old.table made.old }

        ensures earlier { Extends dd.old.table dd.new.table }
        ensures ready { IsReady (setting_of self.now) dd.new.table made.new }
        ensures set { IfOk result
            (IsSetOf dd.new.table (IsOneIn (setting_of self.now) (means dd.old.table valid) id)) }
    {
        let node = self.truth(id, made, dd)?;
        let both = dd.and(valid, node, &mut Steps::new(()))?;
        Ok(both)
    }

    /// Where a diagram is true and a term is 1, for each of some terms. Every id keeps its meaning, also where memory
    /// runs out.
    pub fn sets(
        &self,
        valid: NodeId,
        ids: &[TermId],
        made: &mut TermBits,
        dd: &mut Manager,
    ) -> Result<Vec<NodeId>, AllocError>
        requires valid { Knows dd.old.table valid }
        requires terms { All (IsTerm self.now.terms 1) ids.now }
        requires ready { IsReady (setting_of self.now) dd.old.table made.old }

        ensures earlier { Extends dd.old.table dd.new.table }
        ensures ready { IsReady (setting_of self.now) dd.new.table made.new }
        ensures sets { IfOk result (λ nodes. AreSets dd.new.table
            (IsOneIn (setting_of self.now) (means dd.old.table valid)) ids.now nodes.items) }
    {
        let mut nodes = Vec::new(self.alloc);
        for id in ids {
            let node = self.set(valid, *id, made, dd)?;
            nodes.push(node)?;
        }
        Ok(nodes)
    }

    /// Where a diagram is true and a term is 1 for all choices. Every id keeps its meaning, also where memory runs out.
    pub fn always(
        &self,
        valid: NodeId,
        id: TermId,
        made: &mut TermBits,
        dd: &mut Manager,
    ) -> Result<NodeId, AllocError>
        requires valid { Knows dd.old.table valid }
        requires term { IsTerm self.now.terms 1 id }
        requires ready { IsReady (setting_of self.now) dd.old.table made.old }

        ensures earlier { Extends dd.old.table dd.new.table }
        ensures ready { IsReady (setting_of self.now) dd.new.table made.new }
        ensures set { IfOk result
            (IsSetOf dd.new.table (IsAlwaysOneIn (setting_of self.now) (means dd.old.table valid) id)) }
    {
        let node = self.truth(id, made, dd)?;
        let choices = self.choices()?;
        let always = dd.forall(node, &choices)?;
        let both = dd.and(valid, always, &mut Steps::new(()))?;
        Ok(both)
    }

    /// Where a diagram is true and a term is 1 for all choices, for each of some terms. Every id keeps its meaning,
    /// also where memory runs out.
    pub fn always_sets(
        &self,
        valid: NodeId,
        ids: &[TermId],
        made: &mut TermBits,
        dd: &mut Manager,
    ) -> Result<Vec<NodeId>, AllocError>
        requires valid { Knows dd.old.table valid }
        requires terms { All (IsTerm self.now.terms 1) ids.now }
        requires ready { IsReady (setting_of self.now) dd.old.table made.old }

        ensures earlier { Extends dd.old.table dd.new.table }
        ensures ready { IsReady (setting_of self.now) dd.new.table made.new }
        ensures sets { IfOk result (λ nodes. AreSets dd.new.table
            (IsAlwaysOneIn (setting_of self.now) (means dd.old.table valid)) ids.now nodes.items) }
    {
        let mut nodes = Vec::new(self.alloc);
        for id in ids {
            let node = self.always(valid, *id, made, dd)?;
            nodes.push(node)?;
        }
        Ok(nodes)
    }
}
