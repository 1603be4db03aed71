//! A pixel format with its translations, which a viewer and its updates share.

ghost use Rattle.std.specs.Prelude.{◌≡◌, IfOk};

use pixel_translate::{PixelFormat, Table};
use std::alloc::{AllocError, Global};
use std::marker::Model;
use std::sync::Arc;

/// A pixel format with its translations worked out: once for all updates that are cut in it. Contracts see it as the format.
#[derive(Drop)]
pub struct Translation {
    table: Arc<Table>,
}

impl Model for Translation {
    ghost use Rattle.pixel_translate.specs.declared.PixelFormat.{PixelFormat};
    ghost use Rattle.std.specs.Arc.{arc_value};

    ghost Value = { PixelFormat };

    ghost view = { λ t. arc_value t.table };
}

impl Translation {
    /// Works out the translations of a format. `AllocError` where memory is refused.
    pub fn new(alloc: Global, format: &PixelFormat) -> Result<Translation, AllocError>
        ensures { IfOk result (λ translation. translation ≡ format.now) }
    {
        let table = Arc::new(alloc, Table::new(format))?;
        Ok(Translation { table })
    }

    /// Returns the same translations, for one more that uses them. Takes no memory; `AllocError` where 2^64 - 1 use them.
    pub fn share(&self) -> Result<Translation, AllocError>
        ensures { IfOk result (λ translation. translation ≡ self.now) }
    {
        let table = Arc::try_clone(&self.table)?;
        Ok(Translation { table })
    }

    /// Returns the translations.
    pub fn table(&self) -> &Table
        ensures { result.now ≡ self.now }
    {
        &self.table
    }
}
