ghost use Rattle.std.specs.Prelude.{◌<◌, ◌≤◌};

use crate::faults::SettingsFault;
use crate::tuning::{LawNumber, SettingsNumbers};

// What a node is set to. Each ghost field is a limit.
#[derive(Clone, Copy, PartialEq, Eq, Debug)]
pub struct Settings {
    pub law: LawNumber,
    pub lambda: u8,
    pub beta: u8,
    pub low: u8,
    pub high: u8,
    pub neigh_hold: u8,
    pub tree_hold: u8,
    pub energy_low: u16,
    pub energy_high: u16,
    ghost lambda_from: { 2 ≤ lambda },
    ghost lambda_to: { lambda ≤ 64 },
    ghost beta_from: { 1 ≤ beta },
    ghost beta_to: { beta ≤ 64 },
    ghost low_from: { 1 ≤ low },
    ghost low_less: { low < high },
    ghost high_to: { high ≤ 255 },
    ghost neigh_from: { 1 ≤ neigh_hold },
    ghost neigh_to: { neigh_hold ≤ 255 },
    ghost tree_from: { 1 ≤ tree_hold },
    ghost tree_to: { tree_hold ≤ 255 },
    ghost energy_less: { energy_low < energy_high },
    ghost energy_to: { energy_high ≤ 1000 },
}

// Settings of these numbers, if each is within its limits.
impl TryFrom<SettingsNumbers> for Settings {
    ghost use Rattle.record.specs.Settings.{MakesSettings};

    type Error = SettingsFault;

    ghost try_from_gives = { MakesSettings };

    fn try_from(n: SettingsNumbers) -> Result<Settings, SettingsFault> {
        let law = LawNumber::try_from(n.law)?;
        if !(2..=64).contains(&n.lambda) || !(1..=64).contains(&n.beta) {
            return Err(SettingsFault::OutOfRange);
        }
        if n.low < 1 || n.low >= n.high || n.high > 255 {
            return Err(SettingsFault::OutOfRange);
        }
        if !(1..=255).contains(&n.neigh_hold) || !(1..=255).contains(&n.tree_hold) {
            return Err(SettingsFault::OutOfRange);
        }
        if n.energy_low >= n.energy_high || n.energy_high > 1000 {
            return Err(SettingsFault::OutOfRange);
        }
        Ok(Settings {
            law,
            lambda: n.lambda as u8,
            beta: n.beta as u8,
            low: n.low as u8,
            high: n.high as u8,
            neigh_hold: n.neigh_hold as u8,
            tree_hold: n.tree_hold as u8,
            energy_low: n.energy_low,
            energy_high: n.energy_high,
        })
    }
}
