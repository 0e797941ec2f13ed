//! A package that was taken in.
ghost use Rattle.std.specs.Prelude.{◌≡◌};

use package_list::SharedPackage;
use std::marker::Model;
use std::rc::Rc;

/// A package that was taken in, seen as itself, as lists share it.
#[derive(Drop)]
pub(crate) struct Taken {
    shared: Rc<SharedPackage>,
}

impl Model for Taken {
    ghost use Rattle.std.specs.Rc.{rc_value};
    ghost use Rattle.package_core.specs.declared.package.Package.{Package};

    ghost Value = { Package };

    ghost view = { λ a. rc_value a.shared };
}

impl Taken {
    pub(crate) fn new(shared: Rc<SharedPackage>) -> Taken
        ensures { result ≡ shared.value }
    {
        Taken { shared }
    }

    pub(crate) fn into_shared(self) -> Rc<SharedPackage>
        ensures { result.value ≡ self }
    {
        self.shared
    }
}
