//! What holds of numbers of steps. A proof that needs a law calls its function.
ghost use Rattle.step_count.specs.Laws.{LevelsGrow};

/// A greater number has as many binary digits at least.
pub fn levels_grow()
    ensures { LevelsGrow }
{}
