//! The laws of views, each as the contract of a function that does nothing.

ghost use Rattle.reducer_views.specs.Held.{GetLaw, QuietLaw};
ghost use Rattle.reducer_views.specs.Products.{MonoidLaw};

/// Views with their product form a monoid.
pub fn monoid_law()
    ensures { MonoidLaw }
{}

/// The views stay as they are at an event of control that begins no strand, and at an access that changes none.
pub fn quiet_law()
    ensures { QuietLaw }
{}

/// At a granted get the strand's view is the last put combined with the updates that count, in serial order.
pub fn get_law()
    ensures { GetLaw }
{}
