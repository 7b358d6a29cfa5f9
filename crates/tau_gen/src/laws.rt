//! What holds of the generated calls, as a function that does nothing.
ghost use Rattle.tau_gen.specs.Sums.{AnyOrder};

/// In whatever order the generated calls are executed, they leave the same rows, and each of them writes.
pub fn any_order()
    ensures { AnyOrder }
{}
