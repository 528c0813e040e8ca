// The names defined so far: a small value that goes in and comes back.
ghost use Rattle.std.specs.Prelude.{◌≡◌, true, false, [], ◌-◌, get_or};
ghost use Rattle.book.specs.Kind.{is_name};
ghost use Rattle.reader.specs.Names.{Holds, More};

// A flag for each name from A to Z.
#[derive(Clone, Copy)]
pub struct Names {
    pub defined: [bool; 26],
}

impl Names {
    pub fn none() -> Self
        ensures { Holds result [] }
    {
        Names {
            defined: [false; 26],
        }
    }

    pub fn has(self, name: u8) -> bool
        requires { is_name name ≡ true }
        ensures { result ≡ get_or self.defined (name - 65) false }
    {
        let i = (name - 65) as usize;
        self.defined[i]
    }

    pub fn with(self, name: u8) -> Self
        requires { is_name name ≡ true }
        ensures { More self name result }
    {
        let mut more = self;
        let i = (name - 65) as usize;
        more.defined[i] = true;
        more
    }
}
