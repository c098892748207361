//! Heads of functions and methods.

ghost use Rattle.std.specs.Prelude.{◌≡◌};
ghost use Rattle.actx_grammar.specs.Reader as spec;
ghost use Rattle.actx_grammar.specs.Reads.{Reads};
ghost use Rattle.actx_grammar.specs.Tokens as tokens;

use crate::cursor::Cursor;
use actx_grammar::{Cause, Kind};
use actx_lex::Punct;
use actx_tree::Flow;

impl<'a> Cursor<'a> {
    /// `*`, if it comes next.
    #[tactic(auto, unfolding(actx_grammar::specs::Reader::star))]
    fn star(&mut self) -> Flow
        ensures { spec.star self.old ≡ Ok (result, self.new) }
    {
        match self.next() {
            Kind::Sign(Punct::Star) => {
                self.skip();
                Flow::Generator
            }
            _ => Flow::Plain,
        }
    }

    /// `function`, `function *` or `async function` (ECMA-262 §15.2, §15.5, §15.8).
    ///
    /// # Errors
    /// `NoTree` where other tokens come next.
    #[tactic(auto, unfolding(actx_grammar::specs::Reader::function_head, actx_grammar::specs::Reader::and_then))]
    pub fn function_head(&mut self) -> Result<Flow, Cause>
        ensures { Reads (spec.function_head self.old) result self.new }
    {
        if self.is_async_function() {
            self.skip();
            self.skip();
            return Ok(Flow::Async);
        }
        self.function_word()?;
        Ok(self.star())
    }

    /// How a method that begins here runs.
    #[tactic(auto, unfolding(actx_grammar::specs::Tokens::method_flow))]
    fn method_flow(&self) -> Flow
        ensures { result ≡ tokens.method_flow self.now }
    {
        if matches!(self.next(), Kind::Sign(Punct::Star)) {
            Flow::Generator
        } else if self.is_async_method() {
            Flow::Async
        } else {
            Flow::Plain
        }
    }

    /// `async` or `*` before the key of a method, if one comes next (ECMA-262 §15.4).
    #[tactic(auto, unfolding(actx_grammar::specs::Reader::method_head))]
    pub fn method_head(&mut self) -> Flow
        ensures { spec.method_head self.old ≡ Ok (result, self.new) }
    {
        let flow = self.method_flow();
        match flow {
            Flow::Plain => {}
            Flow::Async | Flow::Generator => self.skip(),
        }
        flow
    }
}
