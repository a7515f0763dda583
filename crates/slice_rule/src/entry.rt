use funnel_model::Event;

/// A value that names one event.
pub trait Entry {
    ghost use Rattle.funnel_model.specs.declared.event.Event.{Event};

    // The event that it names.
    ghost event: { Self → Event };
}

impl Entry for Event {
    ghost event = { λ e. e };
}
