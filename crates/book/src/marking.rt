// The used bytes as they are to be: those of the array, with each listed scene's bit turned to 0.
ghost use Rattle.std.specs.Prelude.{◌≡◌, false, ◌<◌};
ghost use Rattle.book.specs.Book.{marked_scene, marked};
ghost use Rattle.book.specs.Refusals.{has_over};

use crate::sizes::USED;

pub fn mark_scene(scene: u32, used: &mut [u8; USED])
    requires { scene < 4096 }
    ensures { used.new ≡ marked_scene scene used.old }
{
    let place = scene as usize / 8;
    used[place] &= !(1 << (scene % 8));
}

pub fn mark_scenes(scenes: &[u32], used: &mut [u8; USED])
    requires { has_over scenes.now ≡ false }
    ensures { used.new ≡ marked scenes.now used.old }
{
    for &scene in scenes {
        mark_scene(scene, used);
    }
}
