// The names of the methods.
ghost use Rattle.std.specs.Prelude.{◌≡◌, ◌≤◌, length, Some};
ghost use Rattle.message.specs.Names.{method_name};

use crate::kinds::Method;
use std::fmt;

impl Method {
    pub fn name(self) -> &'static str
        ensures value { result.now ≡ method_name self }
        ensures size { length result.now ≤ 7 }
    {
        match self {
            Method::Request => "REQUEST",
            Method::Cancel => "CANCEL",
            Method::Reply => "REPLY",
        }
    }
}

impl fmt::Display for Method {
    ghost output = { λ m. Some (method_name m) };

    fn fmt<W: fmt::Write>(&self, f: &mut fmt::Formatter<W>) -> fmt::Result {
        f.write_str(self.name())
    }
}
