// The bytes of a plan, where they are as many as it takes.
ghost use Rattle.std.specs.Prelude.{◌≡◌, length};
ghost use Rattle.plan.specs.Plans.{plan_size, plan_in};

#[derive(Clone, Copy)]
pub struct Whole<'a> {
    pub bytes: &'a [u8],
    ghost sized: { length bytes.now ≡ plan_size (plan_in bytes.now) },
}
