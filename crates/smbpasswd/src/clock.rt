// When a password is too old.
ghost use Rattle.std.specs.Prelude.{◌≡◌};
ghost use Rattle.smbpasswd.specs.Record.{is_expired};

// The present time and the maximum age of a password, in seconds. The public functions take the two
// apart: a caller has them so, and is asked for no more.
#[derive(Clone, Copy)]
pub(crate) struct Clock {
    pub present: u32,
    pub max_age: u32,
}

impl Clock {
    // Whether a password that was last changed at a time is expired, unless it never is.
    pub(crate) fn is_expired(self, never: bool, time: u32) -> bool
        ensures { result ≡ is_expired self.present self.max_age never time }
    {
        !never && time != 0 && time <= self.present && self.max_age < self.present - time
    }
}
