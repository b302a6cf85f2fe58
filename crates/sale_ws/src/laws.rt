//! Laws of the definitions that the contracts cite. Each function does nothing: its contract is the law.
ghost use Rattle.sale_ws.specs.TurnExample.{TurnExample};

/// Examples of the result of a turn.
pub fn law_turn_examples()
    ensures turns { TurnExample }
{}
