//! A layout with several owners.
ghost use Rattle.std.specs.Prelude.{◌≡◌, IfOk};

use funnel_model::Memory;
use row_layout::Layout;
use std::alloc::Global;
use std::marker::Model;
use std::sync::Arc;

/// A layout that slices and calls own together. Contracts see the layout.
#[derive(Debug, Drop)]
pub struct SharedLayout {
    layout: Arc<Layout>,
}

impl Model for SharedLayout {
    ghost use Rattle.std.specs.Arc.{arc_value};
    ghost use Rattle.row_layout.specs.Layouts.{LayoutId};

    ghost Value = { LayoutId };

    ghost view = { λ s. arc_value s.layout };
}

impl SharedLayout {
    /// The layout, with one owner.
    pub fn new(alloc: Global, layout: Layout) -> Result<SharedLayout, Memory>
        ensures { IfOk result (λ shared. shared ≡ layout) }
    {
        let layout = Arc::new(alloc, layout)?;
        Ok(SharedLayout { layout })
    }

    /// The same layout, for one more owner.
    pub fn share(&self) -> Result<SharedLayout, Memory>
        ensures { IfOk result (λ shared. shared ≡ self.now) }
    {
        let layout = Arc::try_clone(&self.layout)?;
        Ok(SharedLayout { layout })
    }

    /// The layout.
    pub fn layout(&self) -> &Layout
        ensures { result.now ≡ self.now }
    {
        &*self.layout
    }
}
