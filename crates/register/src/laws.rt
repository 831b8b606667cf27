//! What the register says as a whole.
ghost use Rattle.register.specs.Laws.{NamesEachFault};

/// The numbers 1 to 22 each stand for one cause, and part, number, place and height name the fault.
pub fn register_names_each_fault()
    ensures { NamesEachFault }
{}
