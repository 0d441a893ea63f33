//! The symbolic game of a design, to be solved.
ghost use Rattle.std.specs.Prelude.{◌≡◌, ◌<◌, ◌^◌, length};
ghost use Rattle.tm_solve_exact.specs.Exact.{HasDesign, IsExactOf};
ghost use Rattle.tm_game.specs.Game.{IsOf};
ghost use Rattle.tm_syntax.specs.Design.{DesignTree};

use tm_game::Game;

/// The symbolic game of a design, as solving asks for it.
///
/// A set of states is an id of the game's that is true at valid states alone.
#[derive(Drop)]
pub struct Exact {
    pub game: Game,
    pub goals: u32,
    pub fairs: u32,
    pub ghost of: { HasDesign game },
    pub ghost goal_count: { goals ≡ length game.goals },
    pub ghost fair_count: { fairs ≡ length game.fairs },
}

impl Exact {
    /// The game of a design, to be solved. It takes no memory.
    pub fn new(game: Game) -> Exact
        requires of { (d : DesignTree) × IsOf d game }
        requires goals { length game.goals < 2 ^ 32 }
        requires fairs { length game.fairs < 2 ^ 32 }
        ensures game { result.game ≡ game }
        ensures exact { (d : DesignTree) → IsOf d game → IsExactOf d result.game }
    {
        tell(&game);
        let goals = game.goals().len() as u32;
        let fairs = game.fairs().len() as u32;
        Exact { game, goals, fairs }
    }
}

/// What a game tells of the sets that it keeps: a game that is of a design is as solving asks for it. It does nothing
/// at run time but read.
pub fn tell(game: &Game)
    ensures { (d : DesignTree) → IsOf d game.now → IsExactOf d game.now }
{
    let _goals = game.goals();
    let _fairs = game.fairs();
    let _valid = game.valid();
    let _order = game.order();
    let _count = game.terms().count();
}
