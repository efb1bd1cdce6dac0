//! The laws of canonical order: each function here does nothing, and its contract is a law.

ghost use Rattle.normalisation.specs.OrderLaws.{OrderIsReached, OrderIsOnly, OrderTwice, StartersStay, NonstartersPassGreaterClasses, EqualsKeepOrder};

/// The ordered list comes from the list by exchanging neighbours of which the first has the greater class and the
/// second is no starter, and no such neighbours are left. The Unicode Standard, section 3.11, D109.
pub fn order_is_reached()
    ensures { OrderIsReached }
{}

/// In whatever order such neighbours are exchanged, the list is the ordered one if none are left.
pub fn order_is_only()
    ensures { OrderIsOnly }
{}

/// What is in canonical order stays as it is.
pub fn order_twice()
    ensures { OrderTwice }
{}

/// One more code point of class 0 stays at the end.
pub fn starters_stay()
    ensures { StartersStay }
{}

/// One more code point of another class is moved before the ones directly before it that have a greater class.
pub fn nonstarters_pass_greater_classes()
    ensures { NonstartersPassGreaterClasses }
{}

/// The code points of one class keep their order.
pub fn equals_keep_order()
    ensures { EqualsKeepOrder }
{}
