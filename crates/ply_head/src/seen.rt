// What the lines of a header have declared so far.
ghost use Rattle.std.specs.Prelude.{◌≡◌, [], ◌∷◌, ◌++◌, IfOk};
ghost use Rattle.ply_head.specs.Headers.{with_last, nothing_seen};

use crate::text::Text;
use crate::{Format, Property};
use std::alloc::{AllocError, Global};
use std::marker::Model;

/// A property with its name.
#[derive(Drop)]
pub struct Named {
    pub name: Text,
    pub property: Property,
}

/// The properties of an element, in order.
#[derive(Drop)]
pub struct NamedProperties {
    items: Vec<Named>,
}

impl Model for NamedProperties {
    ghost use Rattle.std.specs.Prelude.{List};
    ghost use Rattle.ply_head.specs.declared.seen.Named.{Named};

    ghost Value = { List Named };

    ghost view = { λ p. p.items.items };
}

impl NamedProperties {
    /// No property.
    pub fn new(alloc: Global) -> Self
        ensures { result ≡ [] }
    {
        NamedProperties {
            items: Vec::new(alloc),
        }
    }

    /// Adds a property behind the others. Where memory runs out, it may be lost.
    pub fn push(&mut self, named: Named) -> Result<(), AllocError>
        ensures { IfOk result (λ _. self.new ≡ self.old ++ named ∷ []) }
    {
        self.items.push(named)?;
        Ok(())
    }

    /// The properties, in order.
    pub fn as_slice(&self) -> &[Named]
        ensures { result.now ≡ self.now }
    {
        self.items.as_slice()
    }
}

/// An element with its name, how many rows it has, and its properties.
#[derive(Drop)]
pub struct Declared {
    pub name: Text,
    pub count: u64,
    pub properties: NamedProperties,
}

/// Elements, in order.
#[derive(Drop)]
pub struct DeclaredElements {
    items: Vec<Declared>,
}

impl Model for DeclaredElements {
    ghost use Rattle.std.specs.Prelude.{List};
    ghost use Rattle.ply_head.specs.declared.seen.Declared.{Declared};

    ghost Value = { List Declared };

    ghost view = { λ e. e.items.items };
}

impl DeclaredElements {
    /// No element.
    pub fn new(alloc: Global) -> Self
        ensures { result ≡ [] }
    {
        DeclaredElements {
            items: Vec::new(alloc),
        }
    }

    /// Adds an element behind the others. Where memory runs out, it may be lost.
    pub fn push(&mut self, element: Declared) -> Result<(), AllocError>
        ensures { IfOk result (λ _. self.new ≡ self.old ++ element ∷ []) }
    {
        self.items.push(element)?;
        Ok(())
    }

    /// Adds a property to the last element, if there is one. Where memory runs out, that element may be lost.
    pub fn push_property(&mut self, named: Named) -> Result<(), AllocError>
        ensures { IfOk result (λ _. self.new ≡ with_last (named ∷ []) self.old) }
    {
        if let Some(mut last) = self.items.pop() {
            last.properties.push(named)?;
            self.items.push(last)?;
        }
        Ok(())
    }

    /// The elements, in order.
    pub fn as_slice(&self) -> &[Declared]
        ensures { result.now ≡ self.now }
    {
        self.items.as_slice()
    }
}

/// The format, where it was named, and the elements.
#[derive(Drop)]
pub struct Seen {
    pub format: Option<Format>,
    pub elements: DeclaredElements,
}

impl Seen {
    /// What no line has declared.
    pub fn new(alloc: Global) -> Self
        ensures { result ≡ nothing_seen }
    {
        Seen {
            format: None,
            elements: DeclaredElements::new(alloc),
        }
    }
}
