//! The grammar parameters under which a production is read (ECMA-262, section 5.1.5).

ghost use Rattle.std.specs.Prelude.{⊤, ◌≡◌, ◌<◌, ◌^◌, [], ◌∷◌, codes, if◌then◌else◌};
ghost use Rattle.std.specs.Int.RustNames.{bit_or};
ghost use Rattle.bitflags.specs.Sets.{without};
ghost use Rattle.js_base.specs.Contexts.{AddsFlag, SetsFlag, bits_of, has_flag, in_flag, yield_flag, await_flag, return_flag, decorator_flag, disallow_conditional_types_flag, ambient_flag, top_level_flag, new_target_flag, await_expression_flag, reads_await};

use bitflags::{Flag, Flags, bitflag_items};

/// A set of grammar parameters and of other facts on the place that is read. The bits that no constant names are 0 in
/// each set that is made from the constants by the calls below.
#[derive(Debug, Clone, Copy, PartialEq, Eq, PartialOrd, Ord, Hash)]
pub struct Context(u16);

bitflag_items! {
    impl Context: u16 {
        /// The operator `in` is read: the parameter In of RelationalExpression (13.10).
        const In = 1;
        /// `yield` is an operator: the parameter Yield (15.5).
        const Yield = 2;
        /// `await` is no name: the parameter Await (13.1).
        const Await = 4;
        /// `return` is read: the parameter Return (14.10).
        const Return = 8;
        /// The expression of a decorator is read.
        const Decorator = 16;
        /// No conditional type is read; no text of JavaScript sets it.
        const DisallowConditionalTypes = 32;
        /// A declaration without its implementation is read; no text of JavaScript sets it.
        const Ambient = 64;
        /// The top level of the text is read, and no function.
        const TopLevel = 128;
        /// `new.target` is read (13.3.12): in a function, a static block or a field initializer.
        const NewTarget = 256;
        /// `await` is an operator: the parameter Await (15.8). It is set where `Await` is, but not in the parameters of an
        /// asynchronous arrow function that stands where `await` is none (15.9).
        const AwaitExpression = 512;
    }
}

impl Flags for Context {
    type Bits = u16;

    ghost exact = { ⊤ };

    ghost table = { (codes "In", 1) ∷ (codes "Yield", 2) ∷ (codes "Await", 4) ∷ (codes "Return", 8) ∷ (codes "Decorator", 16) ∷ (codes "DisallowConditionalTypes", 32) ∷ (codes "Ambient", 64) ∷ (codes "TopLevel", 128) ∷ (codes "NewTarget", 256) ∷ (codes "AwaitExpression", 512) ∷ [] };

    ghost set_of = { λ c. c.0 };

    fn flags<'a>() -> &'a [Flag<Context>] {
        Context::FLAGS
    }

    fn bits(&self) -> u16 {
        self.0
    }

    fn from_bits_retain(bits: u16) -> Context {
        Context(bits)
    }
}

impl Default for Context {
    ghost is_default = { λ c. c.0 ≡ 1 };

    /// `In` alone.
    fn default() -> Context {
        Context::In
    }
}

impl Context {
    /// Whether `In` is set.
    pub fn has_in(self) -> bool
        ensures { result ≡ has_flag in_flag self }
    {
        self.contains(Context::In)
    }

    /// Whether `Yield` is set.
    pub fn has_yield(self) -> bool
        ensures { result ≡ has_flag yield_flag self }
    {
        self.contains(Context::Yield)
    }

    /// Whether `Await` is set.
    pub fn has_await(self) -> bool
        ensures { result ≡ has_flag await_flag self }
    {
        self.contains(Context::Await)
    }

    /// Whether `Return` is set.
    pub fn has_return(self) -> bool
        ensures { result ≡ has_flag return_flag self }
    {
        self.contains(Context::Return)
    }

    /// Whether `Decorator` is set.
    pub fn has_decorator(self) -> bool
        ensures { result ≡ has_flag decorator_flag self }
    {
        self.contains(Context::Decorator)
    }

    /// Whether `DisallowConditionalTypes` is set.
    pub fn has_disallow_conditional_types(self) -> bool
        ensures { result ≡ has_flag disallow_conditional_types_flag self }
    {
        self.contains(Context::DisallowConditionalTypes)
    }

    /// Whether `Ambient` is set.
    pub fn has_ambient(self) -> bool
        ensures { result ≡ has_flag ambient_flag self }
    {
        self.contains(Context::Ambient)
    }

    /// Whether `TopLevel` is set.
    pub fn has_top_level(self) -> bool
        ensures { result ≡ has_flag top_level_flag self }
    {
        self.contains(Context::TopLevel)
    }

    /// Whether `NewTarget` is set.
    pub fn has_new_target(self) -> bool
        ensures { result ≡ has_flag new_target_flag self }
    {
        self.contains(Context::NewTarget)
    }

    /// Whether `AwaitExpression` is set.
    pub fn has_await_expression(self) -> bool
        ensures { result ≡ has_flag await_expression_flag self }
    {
        self.contains(Context::AwaitExpression)
    }

    /// The bits of the set.
    pub fn number(self) -> u16
        ensures { result ≡ bits_of self }
    {
        self.0
    }

    /// Whether an AwaitExpression is read: `await` is no name, and it is an operator.
    pub fn reads_await(self) -> bool
        ensures { result ≡ reads_await self }
    {
        self.has_await() && self.has_await_expression()
    }

    /// Sets or clears `In`; every other flag stays.
    pub fn and_in(self, include: bool) -> Context
        ensures { SetsFlag in_flag include self result }
    {
        self.and(Context::In, include)
    }

    /// Sets or clears `Yield`; every other flag stays.
    pub fn and_yield(self, include: bool) -> Context
        ensures { SetsFlag yield_flag include self result }
    {
        self.and(Context::Yield, include)
    }

    /// Sets or clears `Await`; every other flag stays.
    pub fn and_await(self, include: bool) -> Context
        ensures { SetsFlag await_flag include self result }
    {
        self.and(Context::Await, include)
    }

    /// Sets or clears `Return`; every other flag stays.
    pub fn and_return(self, include: bool) -> Context
        ensures { SetsFlag return_flag include self result }
    {
        self.and(Context::Return, include)
    }

    /// Sets or clears `Decorator`; every other flag stays.
    pub fn and_decorator(self, include: bool) -> Context
        ensures { SetsFlag decorator_flag include self result }
    {
        self.and(Context::Decorator, include)
    }

    /// Sets or clears `Ambient`; every other flag stays.
    pub fn and_ambient(self, include: bool) -> Context
        ensures { SetsFlag ambient_flag include self result }
    {
        self.and(Context::Ambient, include)
    }

    /// Sets or clears `NewTarget`; every other flag stays.
    pub fn and_new_target(self, include: bool) -> Context
        ensures { SetsFlag new_target_flag include self result }
    {
        self.and(Context::NewTarget, include)
    }

    /// Sets or clears `AwaitExpression`; every other flag stays.
    pub fn and_await_expression(self, include: bool) -> Context
        ensures { SetsFlag await_expression_flag include self result }
    {
        self.and(Context::AwaitExpression, include)
    }

    /// Adds `Await` where `include`; every other flag stays.
    pub fn union_await_if(self, include: bool) -> Context
        ensures { AddsFlag await_flag include self result }
    {
        self.union_if(Context::Await, include)
    }

    /// Adds `Ambient` where `include`; every other flag stays.
    pub fn union_ambient_if(self, include: bool) -> Context
        ensures { AddsFlag ambient_flag include self result }
    {
        self.union_if(Context::Ambient, include)
    }

    /// Adds `Yield` where `include`; every other flag stays.
    pub fn union_yield_if(self, include: bool) -> Context
        ensures { AddsFlag yield_flag include self result }
    {
        self.union_if(Context::Yield, include)
    }

    /// Sets or clears the bits of `flags`.
    fn and(self, flags: Context, include: bool) -> Context
        ensures bits { result.0 ≡ (if include then bit_or self.0 flags.0 else without 16 self.0 flags.0) }
        ensures small { self.0 < 2 ^ 16 }
    {
        let _bits = self.0;
        if include {
            self.union(flags)
        } else {
            self.difference(flags)
        }
    }

    /// Adds the bits of `flags` where `include`.
    fn union_if(self, flags: Context, include: bool) -> Context
        ensures { result.0 ≡ (if include then bit_or self.0 flags.0 else self.0) }
    {
        if include { self.union(flags) } else { self }
    }
}
