ghost use Rattle.std.specs.Prelude.{IfOk};
ghost use Rattle.t1_win.specs.Windows.{IsWindows};

use t1_win::{WinTrap, Windows, flushw, restore, restored, save, saved, trap_cwp};

/// The windows that a strand starts with.
fn start() -> Windows
    ensures { IsWindows result }
{
    Windows {
        cwp: 0,
        cansave: 6,
        canrestore: 0,
        cleanwin: 7,
        otherwin: 0,
        wstate: 0,
    }
}

fn six_saves(w: Windows) -> Result<Windows, WinTrap>
    requires { IsWindows w }
    ensures { IfOk result IsWindows }
{
    let w = save(save(save(w)?)?)?;
    save(save(save(w)?)?)
}

fn six_restores(w: Windows) -> Result<Windows, WinTrap>
    requires { IsWindows w }
    ensures { IfOk result IsWindows }
{
    let w = restore(restore(restore(w)?)?)?;
    restore(restore(restore(w)?)?)
}

#[test]
fn six_saves_fit_and_six_restores_come_back(rt: HostRuntime) {
    let full = Windows {
        cwp: 6,
        cansave: 0,
        canrestore: 6,
        ..start()
    };
    assert_eq!(rt; six_saves(start()), Ok(full));
    assert_eq!(rt; save(full), Err(WinTrap::Spill(0x080)));
    assert_eq!(rt; trap_cwp(full, 0x080), 0);
    assert_eq!(rt; six_restores(full), Ok(start()));
    assert_eq!(rt; restore(start()), Err(WinTrap::Fill(0x0c0)));
    assert_eq!(rt; trap_cwp(start(), 0x0c0), 7);
}

#[test]
fn windows_of_another_address_space_have_handlers_of_their_own(rt: HostRuntime) {
    let mine = Windows {
        cansave: 0,
        canrestore: 0,
        cleanwin: 6,
        wstate: 0o52,
        ..start()
    };
    let other = Windows {
        otherwin: 6,
        ..mine
    };
    assert_eq!(rt; save(mine), Err(WinTrap::Spill(0x088)));
    assert_eq!(rt; save(other), Err(WinTrap::Spill(0x0b4)));
    assert_eq!(rt; flushw(other), Err(WinTrap::Spill(0x0b4)));
    assert_eq!(rt; restore(mine), Err(WinTrap::Fill(0x0c8)));
    assert_eq!(rt; restore(other), Err(WinTrap::Fill(0x0f4)));
    assert_eq!(rt;
        saved(other),
        Windows {
            cansave: 1,
            otherwin: 5,
            ..other
        }
    );
    assert_eq!(rt;
        restored(other),
        Windows {
            canrestore: 1,
            cleanwin: 7,
            otherwin: 5,
            ..other
        }
    );
}

#[test]
fn a_window_of_another_program_is_cleaned_first(rt: HostRuntime) {
    let used = Windows {
        cwp: 3,
        cansave: 3,
        canrestore: 3,
        cleanwin: 3,
        ..start()
    };
    assert_eq!(rt; save(used), Err(WinTrap::Clean));
    assert_eq!(rt; WinTrap::Clean.number(), 0x024);
    assert_eq!(rt; trap_cwp(used, 0x024), 4);
    assert_eq!(rt; trap_cwp(used, 0x010), 3);
    assert_eq!(rt; flushw(start()), Ok(start()));
}
