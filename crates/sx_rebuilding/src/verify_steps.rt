//! What is proved of the steps of `verify` over the files that a build leaves.

ghost use Rattle.sx_rebuilding.specs.VerifyAgain.{VerifyingFollowsBuilding};

use sx_interface::interfaces_are_within;
use sx_verify::verifies_agree;

/// Where `build NAME`, with at most 1,000,000 nodes to spend for each derivation, ended with a
/// plan, and the files are as it leaves them, `verify M` of each module M that was built ends with
/// a plan too, but for read faults and out of memory. So what a build leaves of a module is not
/// refused: the files fit one another, the language and the interfaces of the imports, the body has
/// one reading by the language alone, and the list is replayed within the limits.
pub fn verifying_follows_building()
    ensures { VerifyingFollowsBuilding }
{
    interfaces_are_within();
    verifies_agree();
}
