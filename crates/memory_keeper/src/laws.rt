// A law over all statements.
ghost use Rattle.memory_keeper.specs.Exec.{ClassRefusesNothing};

/// No statement is refused for its class: its outcome is that of the query that its text is.
pub fn class_refuses_nothing()
    ensures { ClassRefusesNothing }
{}
