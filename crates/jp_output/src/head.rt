//! What stands before each line of nodes.

use crate::shared::Shared;
use std::alloc::{AllocError, Global};
use std::marker::Model;

/// What stands before each line of nodes: a name and a tab, or nothing. It means these bytes.
///
/// Its copies share them. Where there are more copies than can be counted, which is 2^63 of them, the further
/// ones are refused where they are written (README, Heads and fields are shared by their copies).
#[derive(Drop)]
pub struct Head {
    shared: Option<Shared<Vec<u8>>>,
}

impl Model for Head {
    ghost use Rattle.std.specs.Prelude.{ℕ, List};
    ghost use Rattle.jp_output.specs.inner.Heads.{bytes_of};

    ghost Value = { List ℕ };

    ghost view = { λ h. bytes_of h.shared };
}

impl Head {
    ghost use Rattle.std.specs.Prelude.{◌≡◌, [], ◌∷◌, ◌++◌, IfOk, OnOk};
    ghost use Rattle.jp_node.specs.Appended.{Extends};

    /// Nothing. It takes no memory.
    pub fn none() -> Head
        ensures { result ≡ [] }
    {
        Head { shared: None }
    }

    /// A name and a tab. `AllocError` if memory was refused.
    pub fn of_name(alloc: Global, name: &str) -> Result<Head, AllocError>
        ensures { IfOk result (λ h. h ≡ name.now ++ 9 ∷ []) }
    {
        let mut bytes = Vec::from_slice(alloc, name.as_bytes())?;
        bytes.push(b'\t')?;
        Ok(Head {
            shared: Some(Shared::new(alloc, bytes)?),
        })
    }

    /// The same, which takes no memory.
    pub fn again(&self) -> Head
        ensures { result ≡ self.now }
    {
        match &self.shared {
            Some(shared) => Head {
                shared: Some(shared.again()),
            },
            None => Head::none(),
        }
    }

    /// Appends its bytes. `AllocError` if the growth was refused.
    pub(crate) fn append_to(&self, out: &mut Vec<u8>) -> Result<(), AllocError>
        ensures ok { OnOk result (out.new.items ≡ out.old.items ++ self.now) }
        ensures kept { Extends out.old.items out.new.items }
    {
        let Some(shared) = &self.shared else {
            return Ok(());
        };
        let Some(bytes) = shared.value() else {
            return Err(AllocError);
        };
        out.extend_from_slice(bytes.as_slice())
    }
}
