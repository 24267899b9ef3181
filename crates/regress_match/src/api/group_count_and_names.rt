//! Properties of a pattern that are known without a search: its groups and their names.

ghost use Rattle.std.specs.Prelude.{◌≡◌, ◌<◌, ◌^◌, length, map, string_bytes};
ghost use Rattle.regex_meaning.specs.{MatchGroupsByNumberAndName.{group_names_by_id}, Tree.{group_ids}};
ghost use Rattle.regress_match.specs.ProgramTreesAndAnswers.{tree_for_byte_units, tree_for_16_bit_units};

use crate::api::Regex;

impl Regex {
    /// Returns the number of capture groups. It is the length of `captures` in each match in a text
    /// of bytes.
    pub fn group_count(&self) -> usize
        ensures count { result ≡ length (group_ids (tree_for_byte_units self.now).root) }
        ensures few { result < 2 ^ 32 }
    {
        self.byte_program().groups() as usize
    }

    /// Returns the length of `captures` in each match in a text of 16-bit code units. It equals
    /// `group_count`, unless the pattern was created from programs of two different trees.
    pub fn unit_group_count(&self) -> usize
        ensures count { result ≡ length (group_ids (tree_for_16_bit_units self.now).root) }
        ensures few { result < 2 ^ 32 }
    {
        self.unit_program().common_program().groups() as usize
    }

    /// Returns the names of the groups in order. A group without a name has the empty string. The
    /// list is empty if no group has a name.
    pub fn group_names(&self) -> &[String]
        ensures { map string_bytes result.now ≡ group_names_by_id (tree_for_byte_units self.now).root }
    {
        self.byte_program().group_names()
    }
}
