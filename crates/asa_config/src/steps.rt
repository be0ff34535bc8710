//! The step of a configuration by one block.
ghost use Rattle.asa_config_edit.specs.Refusals.{Gives};
ghost use Rattle.asa_config.specs.Steps as spec;

use crate::config::Config;
use crate::objects::without_nat;
use asa_config_edit::{
    EditFault, EditRefusal, after_one, begins_object, is_passed, refused, top_words,
};
use asa_text::{Block, Words};

impl Config {
    /// Takes a block whose first word is `no`; `words` are those after it.
    #[tactic(auto, unfolding(crate::specs::Steps::removal_step))]
    fn step_removal(mut self, block: &Block, words: &Words<'_>) -> Result<Config, EditRefusal>
        ensures { Gives result (spec.removal_step self block.now words.now) }
    {
        if words.next_is(b"access-list") {
            return self.step_no_line(block);
        }
        if words.next_is(b"access-group") {
            self.step_no_group(block)?;
            return Ok(self);
        }
        if words.next_is(b"same-security-traffic") {
            self.step_permits(block)?;
            return Ok(self);
        }
        if words.next_is(b"route") {
            self.step_no_route(block)?;
            return Ok(self);
        }
        if begins_object(words) {
            self.step_no_object(block)?;
            return Ok(self);
        }
        Err(refused(1, EditFault::NotBuilt))
    }

    /// Takes a block whose first word is neither `no` nor that of an object or a group.
    #[tactic(auto, unfolding(crate::specs::Steps::other_step))]
    fn step_other(
        mut self,
        block: &Block,
        startup: bool,
        words: &Words<'_>,
    ) -> Result<Config, EditRefusal>
        ensures { Gives result (spec.other_step self block.now startup words.now) }
    {
        if words.next_is(b"interface") {
            self.step_interface(block, startup)?;
            return Ok(self);
        }
        if words.next_is(b"access-list") {
            return self.step_line(block);
        }
        if words.next_is(b"access-group") {
            self.step_group(block)?;
            return Ok(self);
        }
        if words.next_is(b"same-security-traffic") {
            self.step_permits(block)?;
            return Ok(self);
        }
        if words.next_is(b"route") {
            self.step_route(block)?;
            return Ok(self);
        }
        if words.next_is(b"timeout") {
            self.step_timeout(block)?;
            return Ok(self);
        }
        Err(refused(1, EditFault::NotBuilt))
    }

    /// Takes a block of this profile.
    #[tactic(auto, unfolding(crate::specs::Steps::taken_step))]
    fn step_taken(
        self,
        block: &Block,
        startup: bool,
        words: &Words<'_>,
    ) -> Result<Config, EditRefusal>
        ensures { Gives result (spec.taken_step self block.now startup words.now) }
    {
        if words.next_is(b"no") {
            return self.step_removal(block, &after_one(words));
        }
        if begins_object(words) {
            without_nat(block.inner_lines())?;
            return self.step_object(block);
        }
        self.step_other(block, startup, words)
    }

    /// The configuration after a block, taken as a whole or not at all; `startup` tells that it stands before `: end`. A
    /// block that is passed over changes nothing. A refusal gives no configuration; `edit` keeps the one before.
    #[tactic(auto, unfolding(crate::specs::Steps::step))]
    pub fn step(self, block: &Block, startup: bool) -> Result<Config, EditRefusal>
        ensures { Gives result (spec.step self block.now startup) }
    {
        if is_passed(block) {
            return Ok(self);
        }
        self.step_taken(block, startup, &top_words(block))
    }

    /// The configuration after a block, taken as a whole or not at all; this one stays. `startup` tells that the block
    /// stands before `: end`. A block that is passed over changes nothing.
    pub fn edit(&self, block: &Block, startup: bool) -> Result<Config, EditRefusal>
        ensures { Gives result (spec.step self.now block.now startup) }
    {
        let next = self.copy()?;
        next.step(block, startup)
    }
}
