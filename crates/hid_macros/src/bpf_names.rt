//! The names of pages and usages in Linux's `hid_report_helpers.h`, of udev-hid-bpf.
// Written by checks/tree/bpf_names.sh from hidreport_usages/data/usages.txt: edit these.

/// The pages: their numbers, their names, and what the names of their usages begin with.
#[rattlefmt::skip]
pub static PAGES: [(u16, &str, &str); 34] = [
    (0x01, "GenericDesktop", "GD"),
    (0x02, "SimulationControls", "SC"),
    (0x03, "VRControls", "VRC"),
    (0x04, "SportControls", "SC"),
    (0x05, "GameControls", "GC"),
    (0x06, "GenericDeviceControls", "GDC"),
    (0x07, "KeyboardKeypad", "KK"),
    (0x08, "LED", "LED"),
    (0x09, "Button", "But"),
    (0x0a, "Ordinal", "Ord"),
    (0x0b, "TelephonyDevice", "TD"),
    (0x0c, "Consumer", "Con"),
    (0x0d, "Digitizers", "Dig"),
    (0x0e, "Haptics", "Hap"),
    (0x0f, "PhysicalInputDevice", "PID"),
    (0x10, "Unicode", "Uni"),
    (0x11, "SoC", "SC"),
    (0x12, "EyeandHeadTrackers", "EHT"),
    (0x14, "AuxiliaryDisplay", "AD"),
    (0x20, "Sensors", "Sen"),
    (0x40, "MedicalInstrument", "MI"),
    (0x41, "BrailleDisplay", "BD"),
    (0x59, "LightingAndIllumination", "LAI"),
    (0x80, "Monitor", "Mon"),
    (0x81, "MonitorEnumerated", "ME"),
    (0x82, "VESAVirtualControls", "VESAVC"),
    (0x84, "Power", "Pow"),
    (0x85, "BatterySystem", "BS"),
    (0x8c, "BarcodeScanner", "BS"),
    (0x8d, "Scales", "Sca"),
    (0x8e, "MagneticStripeReader", "MSR"),
    (0x90, "CameraControl", "CC"),
    (0x91, "Arcade", "Arc"),
    (0xf1d0, "FIDOAlliance", "FIDOA"),
];

/// The usages of a page, each behind a space: four digits of its number, and its name.
pub fn usages_on(page: u16) -> &'static str {
    match page {
        0x01 => USAGES_01,
        0x02 => USAGES_02,
        0x03 => USAGES_03,
        0x04 => USAGES_04,
        0x05 => USAGES_05,
        0x06 => USAGES_06,
        0x07 => USAGES_07,
        0x08 => USAGES_08,
        0x0b => USAGES_0B,
        0x0c => USAGES_0C,
        0x0d => USAGES_0D,
        0x0e => USAGES_0E,
        0x0f => USAGES_0F,
        0x11 => USAGES_11,
        0x12 => USAGES_12,
        0x14 => USAGES_14,
        0x20 => USAGES_20,
        0x40 => USAGES_40,
        0x41 => USAGES_41,
        0x59 => USAGES_59,
        0x80 => USAGES_80,
        0x82 => USAGES_82,
        0x84 => USAGES_84,
        0x85 => USAGES_85,
        0x8c => USAGES_8C,
        0x8d => USAGES_8D,
        0x8e => USAGES_8E,
        0x90 => USAGES_90,
        0x91 => USAGES_91,
        0xf1d0 => USAGES_F1D0,
        _ => "",
    }
}

#[rattlefmt::skip]
static USAGES_01: &str = "\
\x200001Pointer 0002Mouse 0004Joystick 0005Gamepad 0006Keyboard 0007Keypad 0008MultiaxisContr\
oller 0009TabletPCSystemControls 000aWaterCoolingDevice 000bComputerChassisDevice 000cWire\
lessRadioControls 000dPortableDeviceControl 000eSystemMultiAxisController 000fSpatialContr\
oller 0010AssistiveControl 0011DeviceDock 0012DockableDevice 0013CallStateManagementContro\
l 0030X 0031Y 0032Z 0033Rx 0034Ry 0035Rz 0036Slider 0037Dial 0038Wheel 0039HatSwitch 003aC\
ountedBuffer 003bByteCount 003cMotionWakeup 003dStart 003eSelect 0040Vx 0041Vy 0042Vz 0043\
Vbrx 0044Vbry 0045Vbrz 0046Vno 0047FeatureNotification 0048ResolutionMultiplier 0049Qx 004\
aQy 004bQz 004cQw 0080SystemControl 0081SystemPowerDown 0082SystemSleep 0083SystemWakeUp 0\
084SystemContextMenu 0085SystemMainMenu 0086SystemAppMenu 0087SystemMenuHelp 0088SystemMen\
uExit 0089SystemMenuSelect 008aSystemMenuRight 008bSystemMenuLeft 008cSystemMenuUp 008dSys\
temMenuDown 008eSystemColdRestart 008fSystemWarmRestart 0090DpadUp 0091DpadDown 0092DpadRi\
ght 0093DpadLeft 0094IndexTrigger 0095PalmTrigger 0096Thumbstick 0097SystemFunctionShift 0\
098SystemFunctionShiftLock 0099SystemFunctionShiftLockIndicator 009aSystemDismissNotificat\
ion 009bSystemDoNotDisturb 00a0SystemDock 00a1SystemUndock 00a2SystemSetup 00a3SystemBreak\
\x2000a4SystemDebuggerBreak 00a5ApplicationBreak 00a6ApplicationDebuggerBreak 00a7SystemSpeak\
erMute 00a8SystemHibernate 00a9SystemMicrophoneMute 00b0SystemDisplayInvert 00b1SystemDisp\
layInternal 00b2SystemDisplayExternal 00b3SystemDisplayBoth 00b4SystemDisplayDual 00b5Syst\
emDisplayToggleIntExtMode 00b6SystemDisplaySwapPrimarySecondary 00b7SystemDisplayToggleLCD\
Autoscale 00c0SensorZone 00c1RPM 00c2CoolantLevel 00c3CoolantCriticalLevel 00c4CoolantPump\
\x2000c5ChassisEnclosure 00c6WirelessRadioButton 00c7WirelessRadioLED 00c8WirelessRadioSlider\
Switch 00c9SystemDisplayRotationLockButton 00caSystemDisplayRotationLockSliderSwitch 00cbC\
ontrolEnable 00d0DockableDeviceUniqueID 00d1DockableDeviceVendorID 00d2DockableDevicePrima\
ryUsagePage 00d3DockableDevicePrimaryUsageID 00d4DockableDeviceDockingState 00d5DockableDe\
viceDisplayOcclusion 00d6DockableDeviceObjectType 00e0CallActiveLED 00e1CallMuteToggle 00e\
2CallMuteLED";

#[rattlefmt::skip]
static USAGES_02: &str = "\
\x200001FlightSimulationDevice 0002AutomobileSimulationDevice 0003TankSimulationDevice 0004Sp\
aceshipSimulationDevice 0005SubmarineSimulationDevice 0006SailingSimulationDevice 0007Moto\
rcycleSimulationDevice 0008SportsSimulationDevice 0009AirplaneSimulationDevice 000aHelicop\
terSimulationDevice 000bMagicCarpetSimulationDevice 000cBicycleSimulationDevice 0020Flight\
ControlStick 0021FlightStick 0022CyclicControl 0023CyclicTrim 0024FlightYoke 0025TrackCont\
rol 00b0Aileron 00b1AileronTrim 00b2AntiTorqueControl 00b3AutopilotEnable 00b4ChaffRelease\
\x2000b5CollectiveControl 00b6DiveBrake 00b7ElectronicCountermeasures 00b8Elevator 00b9Elevat\
orTrim 00baRudder 00bbThrottle 00bcFlightCommunications 00bdFlareRelease 00beLandingGear 0\
0bfToeBrake 00c0Trigger 00c1WeaponsArm 00c2WeaponsSelect 00c3WingFlaps 00c4Accelerator 00c\
5Brake 00c6Clutch 00c7Shifter 00c8Steering 00c9TurretDirection 00caBarrelElevation 00cbDiv\
ePlane 00ccBallast 00cdBicycleCrank 00ceHandleBars 00cfFrontBrake 00d0RearBrake";

#[rattlefmt::skip]
static USAGES_03: &str = "\
\x200001Belt 0002BodySuit 0003Flexor 0004Glove 0005HeadTracker 0006HeadMountedDisplay 0007Han\
dTracker 0008Oculometer 0009Vest 000aAnimatronicDevice 0020StereoEnable 0021DisplayEnable";

#[rattlefmt::skip]
static USAGES_04: &str = "\
\x200001BaseballBat 0002GolfClub 0003RowingMachine 0004Treadmill 0030Oar 0031Slope 0032Rate 0\
033StickSpeed 0034StickFaceAngle 0035StickHeelToe 0036StickFollowThrough 0037StickTempo 00\
38StickType 0039StickHeight 0050Putter 0051OneIron 0052TwoIron 0053ThreeIron 0054FourIron\x20\
0055FiveIron 0056SixIron 0057SevenIron 0058EightIron 0059NineIron 005aOne0Iron 005bOne1Iro\
n 005cSandWedge 005dLoftWedge 005ePowerWedge 005fOneWood 0060ThreeWood 0061FiveWood 0062Se\
venWood 0063NineWood";

#[rattlefmt::skip]
static USAGES_05: &str = "\
\x200001ThreeDGameController 0002PinballDevice 0003GunDevice 0020PointofView 0021TurnRightLef\
t 0022PitchForwardBackward 0023RollRightLeft 0024MoveRightLeft 0025MoveForwardBackward 002\
6MoveUpDown 0027LeanRightLeft 0028LeanForwardBackward 0029HeightofPOV 002aFlipper 002bSeco\
ndaryFlipper 002cBump 002dNewGame 002eShootBall 002fPlayer 0030GunBolt 0031GunClip 0032Gun\
Selector 0033GunSingleShot 0034GunBurst 0035GunAutomatic 0036GunSafety 0037GamepadFireJump\
\x200039GamepadTrigger 003aFormfittingGamepad";

#[rattlefmt::skip]
static USAGES_06: &str = "\
\x200001BackgroundNonuserControls 0020BatteryStrength 0021WirelessChannel 0022WirelessID 0023\
DiscoverWirelessControl 0024SecurityCodeCharacterEntered 0025SecurityCodeCharacterErased 0\
026SecurityCodeCleared 0027SequenceID 0028SequenceIDReset 0029RFSignalStrength 002aSoftwar\
eVersion 002bProtocolVersion 002cHardwareVersion 002dMajor 002eMinor 002fRevision 0030Hand\
edness 0031EitherHand 0032LeftHand 0033RightHand 0034BothHands 0040GripPoseOffset 0041Poin\
terPoseOffset";

#[rattlefmt::skip]
static USAGES_07: &str = "\
\x200001ErrorRollOver 0002POSTFail 0003ErrorUndefined 0004KeyboardA 0005KeyboardB 0006Keyboar\
dC 0007KeyboardD 0008KeyboardE 0009KeyboardF 000aKeyboardG 000bKeyboardH 000cKeyboardI 000\
dKeyboardJ 000eKeyboardK 000fKeyboardL 0010KeyboardM 0011KeyboardN 0012KeyboardO 0013Keybo\
ardP 0014KeyboardQ 0015KeyboardR 0016KeyboardS 0017KeyboardT 0018KeyboardU 0019KeyboardV 0\
01aKeyboardW 001bKeyboardX 001cKeyboardY 001dKeyboardZ 001eKeyboard1andBang 001fKeyboard2a\
ndAt 0020Keyboard3andHash 0021Keyboard4andDollar 0022Keyboard5andPercent 0023Keyboard6andC\
aret 0024Keyboard7andAmpersand 0025Keyboard8andStar 0026Keyboard9andLeftBracket 0027Keyboa\
rd0andRightBracket 0028KeyboardReturnEnter 0029KeyboardEscape 002aKeyboardDelete 002bKeybo\
ardTab 002cKeyboardSpacebar 002dKeyboardDashandUnderscore 002eKeyboardEqualsandPlus 002fKe\
yboardLeftBrace 0030KeyboardRightBrace 0031KeyboardBackslashandPipe 0032KeyboardNonUSHasha\
ndTilde 0033KeyboardSemiColonandColon 0034KeyboardLeftAposandDouble 0035KeyboardGraveAccen\
tandTilde 0036KeyboardCommaandLessThan 0037KeyboardPeriodandGreaterThan 0038KeyboardForwar\
dSlashandQuestionMark 0039KeyboardCapsLock 003aKeyboardF1 003bKeyboardF2 003cKeyboardF3 00\
3dKeyboardF4 003eKeyboardF5 003fKeyboardF6 0040KeyboardF7 0041KeyboardF8 0042KeyboardF9 00\
43KeyboardF10 0044KeyboardF11 0045KeyboardF12 0046KeyboardPrintScreen 0047KeyboardScrollLo\
ck 0048KeyboardPause 0049KeyboardInsert 004aKeyboardHome 004bKeyboardPageUp 004cKeyboardDe\
leteForward 004dKeyboardEnd 004eKeyboardPageDown 004fKeyboardRightArrow 0050KeyboardLeftAr\
row 0051KeyboardDownArrow 0052KeyboardUpArrow 0053KeypadNumLockandClear 0054KeypadForwardS\
lash 0055KeypadStar 0056KeypadDash 0057KeypadPlus 0058KeypadENTER 0059Keypad1andEnd 005aKe\
ypad2andDownArrow 005bKeypad3andPageDn 005cKeypad4andLeftArrow 005dKeypad5 005eKeypad6andR\
ightArrow 005fKeypad7andHome 0060Keypad8andUpArrow 0061Keypad9andPageUp 0062Keypad0andInse\
rt 0063KeypadPeriodandDelete 0064KeyboardNonUSBackslashandPipe 0065KeyboardApplication 006\
6KeyboardPower 0067KeypadEquals 0068KeyboardF13 0069KeyboardF14 006aKeyboardF15 006bKeyboa\
rdF16 006cKeyboardF17 006dKeyboardF18 006eKeyboardF19 006fKeyboardF20 0070KeyboardF21 0071\
KeyboardF22 0072KeyboardF23 0073KeyboardF24 0074KeyboardExecute 0075KeyboardHelp 0076Keybo\
ardMenu 0077KeyboardSelect 0078KeyboardStop 0079KeyboardAgain 007aKeyboardUndo 007bKeyboar\
dCut 007cKeyboardCopy 007dKeyboardPaste 007eKeyboardFind 007fKeyboardMute 0080KeyboardVolu\
meUp 0081KeyboardVolumeDown 0082KeyboardLockingCapsLock 0083KeyboardLockingNumLock 0084Key\
boardLockingScrollLock 0085KeypadComma 0086KeypadEqualSign 0087KeyboardInternational1 0088\
KeyboardInternational2 0089KeyboardInternational3 008aKeyboardInternational4 008bKeyboardI\
nternational5 008cKeyboardInternational6 008dKeyboardInternational7 008eKeyboardInternatio\
nal8 008fKeyboardInternational9 0090KeyboardLANG1 0091KeyboardLANG2 0092KeyboardLANG3 0093\
KeyboardLANG4 0094KeyboardLANG5 0095KeyboardLANG6 0096KeyboardLANG7 0097KeyboardLANG8 0098\
KeyboardLANG9 0099KeyboardAlternateErase 009aKeyboardSysReqAttention 009bKeyboardCancel 00\
9cKeyboardClear 009dKeyboardPrior 009eKeyboardReturn 009fKeyboardSeparator 00a0KeyboardOut\
\x2000a1KeyboardOper 00a2KeyboardClearAgain 00a3KeyboardCrSelProps 00a4KeyboardExSel 00b0Keyp\
adDouble0 00b1KeypadTriple0 00b2ThousandsSeparator 00b3DecimalSeparator 00b4CurrencyUnit 0\
0b5CurrencySubunit 00b6KeypadLeftBracket 00b7KeypadRightBracket 00b8KeypadLeftBrace 00b9Ke\
ypadRightBrace 00baKeypadTab 00bbKeypadBackspace 00bcKeypadA 00bdKeypadB 00beKeypadC 00bfK\
eypadD 00c0KeypadE 00c1KeypadF 00c2KeypadXOR 00c3KeypadCaret 00c4KeypadPercentage 00c5Keyp\
adLess 00c6KeypadGreater 00c7KeypadAmpersand 00c8KeypadDoubleAmpersand 00c9KeypadBar 00caK\
eypadDoubleBar 00cbKeypadColon 00ccKeypadHash 00cdKeypadSpace 00ceKeypadAt 00cfKeypadBang\x20\
00d0KeypadMemoryStore 00d1KeypadMemoryRecall 00d2KeypadMemoryClear 00d3KeypadMemoryAdd 00d\
4KeypadMemorySubtract 00d5KeypadMemoryMultiply 00d6KeypadMemoryDivide 00d7KeypadPlusMinus\x20\
00d8KeypadClear 00d9KeypadClearEntry 00daKeypadBinary 00dbKeypadOctal 00dcKeypadDecimal 00\
ddKeypadHexadecimal 00e0KeyboardLeftControl 00e1KeyboardLeftShift 00e2KeyboardLeftAlt 00e3\
KeyboardLeftGUI 00e4KeyboardRightControl 00e5KeyboardRightShift 00e6KeyboardRightAlt 00e7K\
eyboardRightGUI";

#[rattlefmt::skip]
static USAGES_08: &str = "\
\x200001NumLock 0002CapsLock 0003ScrollLock 0004Compose 0005Kana 0006Power 0007Shift 0008DoNo\
tDisturb 0009Mute 000aToneEnable 000bHighCutFilter 000cLowCutFilter 000dEqualizerEnable 00\
0eSoundFieldOn 000fSurroundOn 0010Repeat 0011Stereo 0012SamplingRateDetect 0013Spinning 00\
14CAV 0015CLV 0016RecordingFormatDetect 0017OffHook 0018Ring 0019MessageWaiting 001aDataMo\
de 001bBatteryOperation 001cBatteryOK 001dBatteryLow 001eSpeaker 001fHeadset 0020Hold 0021\
Microphone 0022Coverage 0023NightMode 0024SendCalls 0025CallPickup 0026Conference 0027Stan\
dby 0028CameraOn 0029CameraOff 002aOnLine 002bOffLine 002cBusy 002dReady 002ePaperOut 002f\
PaperJam 0030Remote 0031Forward 0032Reverse 0033Stop 0034Rewind 0035FastForward 0036Play 0\
037Pause 0038Record 0039Error 003aUsageSelectedIndicator 003bUsageInUseIndicator 003cUsage\
MultiModeIndicator 003dIndicatorOn 003eIndicatorFlash 003fIndicatorSlowBlink 0040Indicator\
FastBlink 0041IndicatorOff 0042FlashOnTime 0043SlowBlinkOnTime 0044SlowBlinkOffTime 0045Fa\
stBlinkOnTime 0046FastBlinkOffTime 0047UsageIndicatorColor 0048IndicatorRed 0049IndicatorG\
reen 004aIndicatorAmber 004bGenericIndicator 004cSystemSuspend 004dExternalPowerConnected\x20\
004eIndicatorBlue 004fIndicatorOrange 0050GoodStatus 0051WarningStatus 0052RGBLED 0053RedL\
EDChannel 0054BlueLEDChannel 0055GreenLEDChannel 0056LEDIntensity 0057SystemMicrophoneMute\
\x200060PlayerIndicator 0061Player1 0062Player2 0063Player3 0064Player4 0065Player5 0066Playe\
r6 0067Player7 0068Player8";

#[rattlefmt::skip]
static USAGES_0B: &str = "\
\x200001Phone 0002AnsweringMachine 0003MessageControls 0004Handset 0005Headset 0006TelephonyK\
eyPad 0007ProgrammableButton 0020HookSwitch 0021Flash 0022Feature 0023Hold 0024Redial 0025\
Transfer 0026Drop 0027Park 0028ForwardCalls 0029AlternateFunction 002aLine 002bSpeakerPhon\
e 002cConference 002dRingEnable 002eRingSelect 002fPhoneMute 0030CallerID 0031Send 0050Spe\
edDial 0051StoreNumber 0052RecallNumber 0053PhoneDirectory 0070VoiceMail 0071ScreenCalls 0\
072DoNotDisturb 0073Message 0074AnswerOnOff 0090InsideDialTone 0091OutsideDialTone 0092Ins\
ideRingTone 0093OutsideRingTone 0094PriorityRingTone 0095InsideRingback 0096PriorityRingba\
ck 0097LineBusyTone 0098ReorderTone 0099CallWaitingTone 009aConfirmationTone1 009bConfirma\
tionTone2 009cTonesOff 009dOutsideRingback 009eRinger 00b0PhoneKey0 00b1PhoneKey1 00b2Phon\
eKey2 00b3PhoneKey3 00b4PhoneKey4 00b5PhoneKey5 00b6PhoneKey6 00b7PhoneKey7 00b8PhoneKey8\x20\
00b9PhoneKey9 00baPhoneKeyStar 00bbPhoneKeyPound 00bcPhoneKeyA 00bdPhoneKeyB 00bePhoneKeyC\
\x2000bfPhoneKeyD 00c0PhoneCallHistoryKey 00c1PhoneCallerIDKey 00c2PhoneSettingsKey 00f0HostC\
ontrol 00f1HostAvailable 00f2HostCallActive 00f3ActivateHandsetAudio 00f4RingType 00f5Redi\
alablePhoneNumber 00f8StopRingTone 00f9PSTNRingTone 00faHostRingTone 00fbAlertSoundError 0\
0fcAlertSoundConfirm 00fdAlertSoundNotification 00feSilentRing 0108EmailMessageWaiting 010\
9VoicemailMessageWaiting 010aHostHold 0110IncomingCallHistoryCount 0111OutgoingCallHistory\
Count 0112IncomingCallHistory 0113OutgoingCallHistory 0114PhoneLocale 0140PhoneTimeSecond\x20\
0141PhoneTimeMinute 0142PhoneTimeHour 0143PhoneDateDay 0144PhoneDateMonth 0145PhoneDateYea\
r 0146HandsetNickname 0147AddressBookID 014aCallDuration 014bDualModePhone";

#[rattlefmt::skip]
static USAGES_0C: &str = "\
\x200001ConsumerControl 0002NumericKeyPad 0003ProgrammableButtons 0004Microphone 0005Headphon\
e 0006GraphicEqualizer 0020Plus10 0021Plus100 0022AMPM 0030Power 0031Reset 0032Sleep 0033S\
leepAfter 0034SleepMode 0035Illumination 0036FunctionButtons 0040Menu 0041MenuPick 0042Men\
uUp 0043MenuDown 0044MenuLeft 0045MenuRight 0046MenuEscape 0047MenuValueIncrease 0048MenuV\
alueDecrease 0060DataOnScreen 0061ClosedCaption 0062ClosedCaptionSelect 0063VCRTV 0064Broa\
dcastMode 0065Snapshot 0066Still 0067PictureinPictureToggle 0068PictureinPictureSwap 0069R\
edMenuButton 006aGreenMenuButton 006bBlueMenuButton 006cYellowMenuButton 006dAspect 006eTh\
reeDModeSelect 006fDisplayBrightnessIncrement 0070DisplayBrightnessDecrement 0071DisplayBr\
ightness 0072DisplayBacklightToggle 0073DisplaySetBrightnesstoMinimum 0074DisplaySetBright\
nesstoMaximum 0075DisplaySetAutoBrightness 0076CameraAccessEnabled 0077CameraAccessDisable\
d 0078CameraAccessToggle 0079KeyboardBrightnessIncrement 007aKeyboardBrightnessDecrement 0\
07bKeyboardBacklightSetLevel 007cKeyboardBacklightOOC 007dKeyboardBacklightSetMinimum 007e\
KeyboardBacklightSetMaximum 007fKeyboardBacklightAuto 0080Selection 0081AssignSelection 00\
82ModeStep 0083RecallLast 0084EnterChannel 0085OrderMovie 0086Channel 0087MediaSelection 0\
088MediaSelectComputer 0089MediaSelectTV 008aMediaSelectWWW 008bMediaSelectDVD 008cMediaSe\
lectTelephone 008dMediaSelectProgramGuide 008eMediaSelectVideoPhone 008fMediaSelectGames 0\
090MediaSelectMessages 0091MediaSelectCD 0092MediaSelectVCR 0093MediaSelectTuner 0094Quit\x20\
0095Help 0096MediaSelectTape 0097MediaSelectCable 0098MediaSelectSatellite 0099MediaSelect\
Security 009aMediaSelectHome 009bMediaSelectCall 009cChannelIncrement 009dChannelDecrement\
\x20009eMediaSelectSAP 00a0VCRPlus 00a1Once 00a2Daily 00a3Weekly 00a4Monthly 00b0Play 00b1Pau\
se 00b2Record 00b3FastForward 00b4Rewind 00b5ScanNextTrack 00b6ScanPreviousTrack 00b7Stop\x20\
00b8Eject 00b9RandomPlay 00baSelectDisc 00bbEnterDisc 00bcRepeat 00bdTracking 00beTrackNor\
mal 00bfSlowTracking 00c0FrameForward 00c1FrameBack 00c2Mark 00c3ClearMark 00c4RepeatFromM\
ark 00c5ReturnToMark 00c6SearchMarkForward 00c7SearchMarkBackwards 00c8CounterReset 00c9Sh\
owCounter 00caTrackingIncrement 00cbTrackingDecrement 00ccStopEject 00cdPlayPause 00cePlay\
Skip 00cfVoiceCommand 00d0InvokeCaptureInterface 00d1StartorStopGameRecording 00d2Historic\
alGameCapture 00d3CaptureGameScreenshot 00d4ShoworHideRecordingIndicator 00d5StartorStopMi\
crophoneCapture 00d6StartorStopCameraCapture 00d7StartorStopGameBroadcast 00d8StartorStopV\
oiceDictationSession 00d9InvokeDismissEmojiPicker 00e0Volume 00e1Balance 00e2Mute 00e3Bass\
\x2000e4Treble 00e5BassBoost 00e6SurroundMode 00e7Loudness 00e8MPX 00e9VolumeIncrement 00eaVo\
lumeDecrement 00f0SpeedSelect 00f1PlaybackSpeed 00f2StandardPlay 00f3LongPlay 00f4Extended\
Play 00f5Slow 0100FanEnable 0101FanSpeed 0102LightEnable 0103LightIlluminationLevel 0104Cl\
imateControlEnable 0105RoomTemperature 0106SecurityEnable 0107FireAlarm 0108PoliceAlarm 01\
09Proximity 010aMotion 010bDuressAlarm 010cHoldupAlarm 010dMedicalAlarm 0150BalanceRight 0\
151BalanceLeft 0152BassIncrement 0153BassDecrement 0154TrebleIncrement 0155TrebleDecrement\
\x200160SpeakerSystem 0161ChannelLeft 0162ChannelRight 0163ChannelCenter 0164ChannelFront 016\
5ChannelCenterFront 0166ChannelSide 0167ChannelSurround 0168ChannelLowFrequencyEnhancement\
\x200169ChannelTop 016aChannelUnknown 0170Subchannel 0171SubchannelIncrement 0172SubchannelDe\
crement 0173AlternateAudioIncrement 0174AlternateAudioDecrement 0180ApplicationLaunchButto\
ns 0181ALLaunchButtonConfigurationTool 0182ALProgrammableButtonConfiguration 0183ALConsume\
rControlConfiguration 0184ALWordProcessor 0185ALTextEditor 0186ALSpreadsheet 0187ALGraphic\
sEditor 0188ALPresentationApp 0189ALDatabaseApp 018aALEmailReader 018bALNewsreader 018cALV\
oicemail 018dALContactsAddressBook 018eALCalendarSchedule 018fALTaskProjectManager 0190ALL\
ogJournalTimecard 0191ALCheckbookFinance 0192ALCalculator 0193ALAVCapturePlayback 0194ALLo\
calMachineBrowser 0195ALLANWANBrowser 0196ALInternetBrowser 0197ALRemoteNetworkingISPConne\
ct 0198ALNetworkConference 0199ALNetworkChat 019aALTelephonyDialer 019bALLogon 019cALLogof\
f 019dALLogonLogoff 019eALTerminalLockScreensaver 019fALControlPanel 01a0ALCommandLineProc\
essorRun 01a1ALProcessTaskManager 01a2ALSelectTaskApplication 01a3ALNextTaskApplication 01\
a4ALPreviousTaskApplication 01a5ALPreemptiveHaltTaskApplication 01a6ALIntegratedHelpCenter\
\x2001a7ALDocuments 01a8ALThesaurus 01a9ALDictionary 01aaALDesktop 01abALSpellCheck 01acALGra\
mmarCheck 01adALWirelessStatus 01aeALKeyboardLayout 01afALVirusProtection 01b0ALEncryption\
\x2001b1ALScreenSaver 01b2ALAlarms 01b3ALClock 01b4ALFileBrowser 01b5ALPowerStatus 01b6ALImag\
eBrowser 01b7ALAudioBrowser 01b8ALMovieBrowser 01b9ALDigitalRightsManager 01baALDigitalWal\
let 01bcALInstantMessaging 01bdALOEMFeaturesTipsTutorialBrowser 01beALOEMHelp 01bfALOnline\
Community 01c0ALEntertainmentContentBrowser 01c1ALOnlineShoppingBrowser 01c2ALSmartCardInf\
ormationHelp 01c3ALMarketMonitorFinanceBrowser 01c4ALCustomizedCorporateNewsBrowser 01c5AL\
OnlineActivityBrowser 01c6ALResearchSearchBrowser 01c7ALAudioPlayer 01c8ALMessageStatus 01\
c9ALContactSync 01caALNavigation 01cbALContextawareDesktopAssistant 0200GenericGUIApplicat\
ionControls 0201ACNew 0202ACOpen 0203ACClose 0204ACExit 0205ACMaximize 0206ACMinimize 0207\
ACSave 0208ACPrint 0209ACProperties 021aACUndo 021bACCopy 021cACCut 021dACPaste 021eACSele\
ctAll 021fACFind 0220ACFindandReplace 0221ACSearch 0222ACGoTo 0223ACHome 0224ACBack 0225AC\
Forward 0226ACStop 0227ACRefresh 0228ACPreviousLink 0229ACNextLink 022aACBookmarks 022bACH\
istory 022cACSubscriptions 022dACZoomIn 022eACZoomOut 022fACZoom 0230ACFullScreenView 0231\
ACNormalView 0232ACViewToggle 0233ACScrollUp 0234ACScrollDown 0235ACScroll 0236ACPanLeft 0\
237ACPanRight 0238ACPan 0239ACNewWindow 023aACTileHorizontally 023bACTileVertically 023cAC\
Format 023dACEdit 023eACBold 023fACItalics 0240ACUnderline 0241ACStrikethrough 0242ACSubsc\
ript 0243ACSuperscript 0244ACAllCaps 0245ACRotate 0246ACResize 0247ACFlipHorizontal 0248AC\
FlipVertical 0249ACMirrorHorizontal 024aACMirrorVertical 024bACFontSelect 024cACFontColor\x20\
024dACFontSize 024eACJustifyLeft 024fACJustifyCenterH 0250ACJustifyRight 0251ACJustifyBloc\
kH 0252ACJustifyTop 0253ACJustifyCenterV 0254ACJustifyBottom 0255ACJustifyBlockV 0256ACInd\
entDecrease 0257ACIndentIncrease 0258ACNumberedList 0259ACRestartNumbering 025aACBulletedL\
ist 025bACPromote 025cACDemote 025dACYes 025eACNo 025fACCancel 0260ACCatalog 0261ACBuyChec\
kout 0262ACAddtoCart 0263ACExpand 0264ACExpandAll 0265ACCollapse 0266ACCollapseAll 0267ACP\
rintPreview 0268ACPasteSpecial 0269ACInsertMode 026aACDelete 026bACLock 026cACUnlock 026dA\
CProtect 026eACUnprotect 026fACAttachComment 0270ACDeleteComment 0271ACViewComment 0272ACS\
electWord 0273ACSelectSentence 0274ACSelectParagraph 0275ACSelectColumn 0276ACSelectRow 02\
77ACSelectTable 0278ACSelectObject 0279ACRedoRepeat 027aACSort 027bACSortAscending 027cACS\
ortDescending 027dACFilter 027eACSetClock 027fACViewClock 0280ACSelectTimeZone 0281ACEditT\
imeZones 0282ACSetAlarm 0283ACClearAlarm 0284ACSnoozeAlarm 0285ACResetAlarm 0286ACSynchron\
ize 0287ACSendReceive 0288ACSendTo 0289ACReply 028aACReplyAll 028bACForwardMsg 028cACSend\x20\
028dACAttachFile 028eACUpload 028fACDownloadSaveTargetAs 0290ACSetBorders 0291ACInsertRow\x20\
0292ACInsertColumn 0293ACInsertFile 0294ACInsertPicture 0295ACInsertObject 0296ACInsertSym\
bol 0297ACSaveandClose 0298ACRename 0299ACMerge 029aACSplit 029bACDisributeHorizontally 02\
9cACDistributeVertically 029dACNextKeyboardLayoutSelect 029eACNavigationGuidance 029fACDes\
ktopShowAllWindows 02a0ACSoftKeyLeft 02a1ACSoftKeyRight 02a2ACDesktopShowAllApplications 0\
2b0ACIdleKeepAlive 02c0ExtendedKeyboardAttributesCollection 02c1KeyboardFormFactor 02c2Key\
boardKeyType 02c3KeyboardPhysicalLayout 02c4VendorSpecificKeyboardPhysicalLayout 02c5Keybo\
ardIETFLanguageTagIndex 02c6ImplementedKeyboardInputAssistControls 02c7KeyboardInputAssist\
Previous 02c8KeyboardInputAssistNext 02c9KeyboardInputAssistPreviousGroup 02caKeyboardInpu\
tAssistNextGroup 02cbKeyboardInputAssistAccept 02ccKeyboardInputAssistCancel 02d0PrivacySc\
reenToggle 02d1PrivacyScreenLevelDecrement 02d2PrivacyScreenLevelIncrement 02d3PrivacyScre\
enLevelMinimum 02d4PrivacyScreenLevelMaximum 0500ContactEdited 0501ContactAdded 0502Contac\
tRecordActive 0503ContactIndex 0504ContactNickname 0505ContactFirstName 0506ContactLastNam\
e 0507ContactFullName 0508ContactPhoneNumberPersonal 0509ContactPhoneNumberBusiness 050aCo\
ntactPhoneNumberMobile 050bContactPhoneNumberPager 050cContactPhoneNumberFax 050dContactPh\
oneNumberOther 050eContactEmailPersonal 050fContactEmailBusiness 0510ContactEmailOther 051\
1ContactEmailMain 0512ContactSpeedDialNumber 0513ContactStatusFlag 0514ContactMisc";

#[rattlefmt::skip]
static USAGES_0D: &str = "\
\x200001Digitizer 0002Pen 0003LightPen 0004TouchScreen 0005TouchPad 0006Whiteboard 0007Coordi\
nateMeasuringMachine 0008ThreeDDigitizer 0009StereoPlotter 000aArticulatedArm 000bArmature\
\x20000cMultiplePointDigitizer 000dFreeSpaceWand 000eDeviceConfiguration 000fCapacitiveHeatMa\
pDigitizer 0020Stylus 0021Puck 0022Finger 0023Devicesettings 0024CharacterGesture 0030TipP\
ressure 0031BarrelPressure 0032InRange 0033Touch 0034Untouch 0035Tap 0036Quality 0037DataV\
alid 0038TransducerIndex 0039TabletFunctionKeys 003aProgramChangeKeys 003bBatteryStrength\x20\
003cInvert 003dXTilt 003eYTilt 003fAzimuth 0040Altitude 0041Twist 0042TipSwitch 0043Second\
aryTipSwitch 0044BarrelSwitch 0045Eraser 0046TabletPick 0047TouchValid 0048Width 0049Heigh\
t 0051ContactIdentifier 0052DeviceMode 0053DeviceIdentifier 0054ContactCount 0055ContactCo\
untMaximum 0056ScanTime 0057SurfaceSwitch 0058ButtonSwitch 0059PadType 005aSecondaryBarrel\
Switch 005bTransducerSerialNumber 005cPreferredColor 005dPreferredColorisLocked 005ePrefer\
redLineWidth 005fPreferredLineWidthisLocked 0060LatencyMode 0061GestureCharacterQuality 00\
62CharacterGestureDataLength 0063CharacterGestureData 0064GestureCharacterEncoding 0065UTF\
8CharacterGestureEncoding 0066UTF16LittleEndianCharacterGestureEncoding 0067UTF16BigEndian\
CharacterGestureEncoding 0068UTF32LittleEndianCharacterGestureEncoding 0069UTF32BigEndianC\
haracterGestureEncoding 006aCapacitiveHeatMapProtocolVendorID 006bCapacitiveHeatMapProtoco\
lVersion 006cCapacitiveHeatMapFrameData 006dGestureCharacterEnable 006eTransducerSerialNum\
berPart2 006fNoPreferredColor 0070PreferredLineStyle 0071PreferredLineStyleisLocked 0072In\
k 0073Pencil 0074Highlighter 0075ChiselMarker 0076Brush 0077NoPreference 0080DigitizerDiag\
nostic 0081DigitizerError 0082ErrNormalStatus 0083ErrTransducersExceeded 0084ErrFullTransF\
eaturesUnavailable 0085ErrChargeLow 0090TransducerSoftwareInfo 0091TransducerVendorId 0092\
TransducerProductId 0093DeviceSupportedProtocols 0094TransducerSupportedProtocols 0095NoPr\
otocol 0096WacomAESProtocol 0097USIProtocol 0098MicrosoftPenProtocol 00a0SupportedReportRa\
tes 00a1ReportRate 00a2TransducerConnected 00a3SwitchDisabled 00a4SwitchUnimplemented 00a5\
TransducerSwitches 00a6TransducerIndexSelector 00b0ButtonPressThreshold";

#[rattlefmt::skip]
static USAGES_0E: &str = "\
\x200001SimpleHapticController 0010WaveformList 0011DurationList 0020AutoTrigger 0021ManualTr\
igger 0022AutoTriggerAssociatedControl 0023Intensity 0024RepeatCount 0025RetriggerPeriod 0\
026WaveformVendorPage 0027WaveformVendorID 0028WaveformCutoffTime 1001WaveformNone 1002Wav\
eformStop 1003WaveformClick 1004WaveformBuzzContinuous 1005WaveformRumbleContinuous 1006Wa\
veformPress 1007WaveformRelease 1008WaveformHover 1009WaveformSuccess 100aWaveformError 10\
0bWaveformInkContinuous 100cWaveformPencilContinuous 100dWaveformMarkerContinuous 100eWave\
formChiselMarkerContinuous 100fWaveformBrushContinuous 1010WaveformEraserContinuous 1011Wa\
veformSparkleContinuous";

#[rattlefmt::skip]
static USAGES_0F: &str = "\
\x200001PhysicalInputDevice 0020Normal 0021SetEffectReport 0022EffectParameterBlockIndex 0023\
ParameterBlockOffset 0024ROMFlag 0025EffectType 0026ETConstantForce 0027ETRamp 0028ETCusto\
mForce 0030ETSquare 0031ETSine 0032ETTriangle 0033ETSawtoothUp 0034ETSawtoothDown 0040ETSp\
ring 0041ETDamper 0042ETInertia 0043ETFriction 0050Duration 0051SamplePeriod 0052Gain 0053\
TriggerButton 0054TriggerRepeatInterval 0055AxesEnable 0056DirectionEnable 0057Direction 0\
058TypeSpecificBlockOffset 0059BlockType 005aSetEnvelopeReport 005bAttackLevel 005cAttackT\
ime 005dFadeLevel 005eFadeTime 005fSetConditionReport 0060CenterPointOffset 0061PositiveCo\
efficient 0062NegativeCoefficient 0063PositiveSaturation 0064NegativeSaturation 0065DeadBa\
nd 0066DownloadForceSample 0067IsochCustomForceEnable 0068CustomForceDataReport 0069Custom\
ForceData 006aCustomForceVendorDefinedData 006bSetCustomForceReport 006cCustomForceDataOff\
set 006dSampleCount 006eSetPeriodicReport 006fOffset 0070Magnitude 0071Phase 0072Period 00\
73SetConstantForceReport 0074SetRampForceReport 0075RampStart 0076RampEnd 0077EffectOperat\
ionReport 0078EffectOperation 0079OpEffectStart 007aOpEffectStartSolo 007bOpEffectStop 007\
cLoopCount 007dDeviceGainReport 007eDeviceGain 007fParameterBlockPoolsReport 0080RAMPoolSi\
ze 0081ROMPoolSize 0082ROMEffectBlockCount 0083SimultaneousEffectsMax 0084PoolAlignment 00\
85ParameterBlockMoveReport 0086MoveSource 0087MoveDestination 0088MoveLength 0089EffectPar\
ameterBlockLoadReport 008bEffectParameterBlockLoadStatus 008cBlockLoadSuccess 008dBlockLoa\
dFull 008eBlockLoadError 008fBlockHandle 0090EffectParameterBlockFreeReport 0091TypeSpecif\
icBlockHandle 0092PIDStateReport 0094EffectPlaying 0095PIDDeviceControlReport 0096PIDDevic\
eControl 0097DCEnableActuators 0098DCDisableActuators 0099DCStopAllEffects 009aDCReset 009\
bDCPause 009cDCContinue 009fDevicePaused 00a0ActuatorsEnabled 00a4SafetySwitch 00a5Actuato\
rOverrideSwitch 00a6ActuatorPower 00a7StartDelay 00a8ParameterBlockSize 00a9DeviceManagedP\
ool 00aaSharedParameterBlocks 00abCreateNewEffectParameterBlockReport 00acRAMPoolAvailable";

#[rattlefmt::skip]
static USAGES_11: &str = "\
\x200001SocControl 0002FirmwareTransfer 0003FirmwareFileId 0004FileOffsetInBytes 0005FileTran\
sferSizeMaxInBytes 0006FilePayload 0007FilePayloadSizeInBytes 0008FilePayloadContainsLastB\
ytes 0009FileTransferStop 000aFileTransferTillEnd";

#[rattlefmt::skip]
static USAGES_12: &str = "\
\x200001EyeTracker 0002HeadTracker 0010TrackingData 0011Capabilities 0012Configuration 0013St\
atus 0014Control 0020SensorTimestamp 0021PositionX 0022PositionY 0023PositionZ 0024GazePoi\
nt 0025LeftEyePosition 0026RightEyePosition 0027HeadPosition 0028HeadDirectionPoint 0029Ro\
tationaboutXaxis 002aRotationaboutYaxis 002bRotationaboutZaxis 0100TrackerQuality 0101Mini\
mumTrackingDistance 0102OptimumTrackingDistance 0103MaximumTrackingDistance 0104MaximumScr\
eenPlaneWidth 0105MaximumScreenPlaneHeight 0200DisplayManufacturerID 0201DisplayProductID\x20\
0202DisplaySerialNumber 0203DisplayManufacturerDate 0204CalibratedScreenWidth 0205Calibrat\
edScreenHeight 0300SamplingFrequency 0301ConfigurationStatus 0400DeviceModeRequest";

#[rattlefmt::skip]
static USAGES_14: &str = "\
\x200001AlphanumericDisplay 0002AuxiliaryDisplay 0020DisplayAttributesReport 0021ASCIICharact\
erSet 0022DataReadBack 0023FontReadBack 0024DisplayControlReport 0025ClearDisplay 0026Disp\
layEnable 0027ScreenSaverDelay 0028ScreenSaverEnable 0029VerticalScroll 002aHorizontalScro\
ll 002bCharacterReport 002cDisplayData 002dDisplayStatus 002eStatNotReady 002fStatReady 00\
30ErrNotaloadablecharacter 0031ErrFontdatacannotberead 0032CursorPositionReport 0033Row 00\
34Column 0035Rows 0036Columns 0037CursorPixelPositioning 0038CursorMode 0039CursorEnable 0\
03aCursorBlink 003bFontReport 003cFontData 003dCharacterWidth 003eCharacterHeight 003fChar\
acterSpacingHorizontal 0040CharacterSpacingVertical 0041UnicodeCharacterSet 0042Font7Segme\
nt 0043SevenSegmentDirectMap 0044Font14Segment 0045One4SegmentDirectMap 0046DisplayBrightn\
ess 0047DisplayContrast 0048CharacterAttribute 0049AttributeReadback 004aAttributeData 004\
bCharAttrEnhance 004cCharAttrUnderline 004dCharAttrBlink 0080BitmapSizeX 0081BitmapSizeY 0\
082MaxBlitSize 0083BitDepthFormat 0084DisplayOrientation 0085PaletteReport 0086PaletteData\
Size 0087PaletteDataOffset 0088PaletteData 008aBlitReport 008bBlitRectangleX1 008cBlitRect\
angleY1 008dBlitRectangleX2 008eBlitRectangleY2 008fBlitData 0090SoftButton 0091SoftButton\
ID 0092SoftButtonSide 0093SoftButtonOffset1 0094SoftButtonOffset2 0095SoftButtonReport 00c\
2SoftKeys 00ccDisplayDataExtensions 00cfCharacterMapping 00ddUnicodeEquivalent 00dfCharact\
erPageMapping 00ffRequestReport";

#[rattlefmt::skip]
static USAGES_20: &str = "\
\x200001Sensor 0010Biometric 0011BiometricHumanPresence 0012BiometricHumanProximity 0013Biome\
tricHumanTouch 0014BiometricBloodPressure 0015BiometricBodyTemperature 0016BiometricHeartR\
ate 0017BiometricHeartRateVariability 0018BiometricPeripheralOxygenSaturation 0019Biometri\
cRespiratoryRate 0020Electrical 0021ElectricalCapacitance 0022ElectricalCurrent 0023Electr\
icalPower 0024ElectricalInductance 0025ElectricalResistance 0026ElectricalVoltage 0027Elec\
tricalPotentiometer 0028ElectricalFrequency 0029ElectricalPeriod 0030Environmental 0031Env\
ironmentalAtmosphericPressure 0032EnvironmentalHumidity 0033EnvironmentalTemperature 0034E\
nvironmentalWindDirection 0035EnvironmentalWindSpeed 0036EnvironmentalAirQuality 0037Envir\
onmentalHeatIndex 0038EnvironmentalSurfaceTemperature 0039EnvironmentalVolatileOrganicComp\
ounds 003aEnvironmentalObjectPresence 003bEnvironmentalObjectProximity 0040Light 0041Light\
AmbientLight 0042LightConsumerInfrared 0043LightInfraredLight 0044LightVisibleLight 0045Li\
ghtUltravioletLight 0050Location 0051LocationBroadcast 0052LocationDeadReckoning 0053Locat\
ionGPSGlobalPositioningSystem 0054LocationLookup 0055LocationOther 0056LocationStatic 0057\
LocationTriangulation 0060Mechanical 0061MechanicalBooleanSwitch 0062MechanicalBooleanSwit\
chArray 0063MechanicalMultivalueSwitch 0064MechanicalForce 0065MechanicalPressure 0066Mech\
anicalStrain 0067MechanicalWeight 0068MechanicalHapticVibrator 0069MechanicalHallEffectSwi\
tch 0070Motion 0071MotionAccelerometer1D 0072MotionAccelerometer2D 0073MotionAccelerometer\
3D 0074MotionGyrometer1D 0075MotionGyrometer2D 0076MotionGyrometer3D 0077MotionMotionDetec\
tor 0078MotionSpeedometer 0079MotionAccelerometer 007aMotionGyrometer 007bMotionGravityVec\
tor 007cMotionLinearAccelerometer 0080Orientation 0081OrientationCompass1D 0082Orientation\
Compass2D 0083OrientationCompass3D 0084OrientationInclinometer1D 0085OrientationInclinomet\
er2D 0086OrientationInclinometer3D 0087OrientationDistance1D 0088OrientationDistance2D 008\
9OrientationDistance3D 008aOrientationDeviceOrientation 008bOrientationCompass 008cOrienta\
tionInclinometer 008dOrientationDistance 008eOrientationRelativeOrientation 008fOrientatio\
nSimpleOrientation 0090Scanner 0091ScannerBarcode 0092ScannerRFID 0093ScannerNFC 00a0Time\x20\
00a1TimeAlarmTimer 00a2TimeRealTimeClock 00b0PersonalActivity 00b1PersonalActivityActivity\
Detection 00b2PersonalActivityDevicePosition 00b3PersonalActivityFloorTracker 00b4Personal\
ActivityPedometer 00b5PersonalActivityStepDetection 00c0OrientationExtended 00c1Orientatio\
nExtendedGeomagneticOrientation 00c2OrientationExtendedMagnetometer 00d0Gesture 00d1Gestur\
eChassisFlipGesture 00d2GestureHingeFoldGesture 00e0Other 00e1OtherCustom 00e2OtherGeneric\
\x2000e3OtherGenericEnumerator 00e4OtherHingeAngle 00f0VendorReserved1 00f1VendorReserved2 00\
f2VendorReserved3 00f3VendorReserved4 00f4VendorReserved5 00f5VendorReserved6 00f6VendorRe\
served7 00f7VendorReserved8 00f8VendorReserved9 00f9VendorReserved10 00faVendorReserved11\x20\
00fbVendorReserved12 00fcVendorReserved13 00fdVendorReserved14 00feVendorReserved15 00ffVe\
ndorReserved16 0200Event 0201EventSensorState 0202EventSensorEvent 0300Property 0301Proper\
tyFriendlyName 0302PropertyPersistentUniqueID 0303PropertySensorStatus 0304PropertyMinimum\
ReportInterval 0305PropertySensorManufacturer 0306PropertySensorModel 0307PropertySensorSe\
rialNumber 0308PropertySensorDescription 0309PropertySensorConnectionType 030aPropertySens\
orDevicePath 030bPropertyHardwareRevision 030cPropertyFirmwareVersion 030dPropertyReleaseD\
ate 030ePropertyReportInterval 030fPropertyChangeSensitivityAbsolute 0310PropertyChangeSen\
sitivityPercentofRange 0311PropertyChangeSensitivityPercentRelative 0312PropertyAccuracy 0\
313PropertyResolution 0314PropertyMaximum 0315PropertyMinimum 0316PropertyReportingState 0\
317PropertySamplingRate 0318PropertyResponseCurve 0319PropertyPowerState 031aPropertyMaxim\
umFIFOEvents 031bPropertyReportLatency 031cPropertyFlushFIFOEvents 031dPropertyMaximumPowe\
rConsumption 031ePropertyIsPrimary 031fPropertyHumanPresenceDetectionType 0400DataFieldLoc\
ation 0402DataFieldAltitudeAntennaSeaLevel 0403DataFieldDifferentialReferenceStationID 040\
4DataFieldAltitudeEllipsoidError 0405DataFieldAltitudeEllipsoid 0406DataFieldAltitudeSeaLe\
velError 0407DataFieldAltitudeSeaLevel 0408DataFieldDifferentialGPSDataAge 0409DataFieldEr\
rorRadius 040aDataFieldFixQuality 040bDataFieldFixType 040cDataFieldGeoidalSeparation 040d\
DataFieldGPSOperationMode 040eDataFieldGPSSelectionMode 040fDataFieldGPSStatus 0410DataFie\
ldPositionDilutionofPrecision 0411DataFieldHorizontalDilutionofPrecision 0412DataFieldVert\
icalDilutionofPrecision 0413DataFieldLatitude 0414DataFieldLongitude 0415DataFieldTrueHead\
ing 0416DataFieldMagneticHeading 0417DataFieldMagneticVariation 0418DataFieldSpeed 0419Dat\
aFieldSatellitesinView 041aDataFieldSatellitesinViewAzimuth 041bDataFieldSatellitesinViewE\
levation 041cDataFieldSatellitesinViewIDs 041dDataFieldSatellitesinViewPRNs 041eDataFieldS\
atellitesinViewSNRatios 041fDataFieldSatellitesUsedCount 0420DataFieldSatellitesUsedPRNs 0\
421DataFieldNMEASentence 0422DataFieldAddressLine1 0423DataFieldAddressLine2 0424DataField\
City 0425DataFieldStateorProvince 0426DataFieldCountryorRegion 0427DataFieldPostalCode 042\
aPropertyLocation 042bPropertyLocationDesiredAccuracy 0430DataFieldEnvironmental 0431DataF\
ieldAtmosphericPressure 0433DataFieldRelativeHumidity 0434DataFieldTemperature 0435DataFie\
ldWindDirection 0436DataFieldWindSpeed 0437DataFieldAirQualityIndex 0438DataFieldEquivalen\
tCO2 0439DataFieldVolatileOrganicCompoundConcentration 043aDataFieldObjectPresence 043bDat\
aFieldObjectProximityRange 043cDataFieldObjectProximityOutofRange 0440PropertyEnvironmenta\
l 0441PropertyReferencePressure 0450DataFieldMotion 0451DataFieldMotionState 0452DataField\
Acceleration 0453DataFieldAccelerationAxisX 0454DataFieldAccelerationAxisY 0455DataFieldAc\
celerationAxisZ 0456DataFieldAngularVelocity 0457DataFieldAngularVelocityaboutXAxis 0458Da\
taFieldAngularVelocityaboutYAxis 0459DataFieldAngularVelocityaboutZAxis 045aDataFieldAngul\
arPosition 045bDataFieldAngularPositionaboutXAxis 045cDataFieldAngularPositionaboutYAxis 0\
45dDataFieldAngularPositionaboutZAxis 045eDataFieldMotionSpeed 045fDataFieldMotionIntensit\
y 0470DataFieldOrientation 0471DataFieldHeading 0472DataFieldHeadingXAxis 0473DataFieldHea\
dingYAxis 0474DataFieldHeadingZAxis 0475DataFieldHeadingCompensatedMagneticNorth 0476DataF\
ieldHeadingCompensatedTrueNorth 0477DataFieldHeadingMagneticNorth 0478DataFieldHeadingTrue\
North 0479DataFieldDistance 047aDataFieldDistanceXAxis 047bDataFieldDistanceYAxis 047cData\
FieldDistanceZAxis 047dDataFieldDistanceOutofRange 047eDataFieldTilt 047fDataFieldTiltXAxi\
s 0480DataFieldTiltYAxis 0481DataFieldTiltZAxis 0482DataFieldRotationMatrix 0483DataFieldQ\
uaternion 0484DataFieldMagneticFlux 0485DataFieldMagneticFluxXAxis 0486DataFieldMagneticFl\
uxYAxis 0487DataFieldMagneticFluxZAxis 0488DataFieldMagnetometerAccuracy 0489DataFieldSimp\
leOrientationDirection 0490DataFieldMechanical 0491DataFieldBooleanSwitchState 0492DataFie\
ldBooleanSwitchArrayStates 0493DataFieldMultivalueSwitchValue 0494DataFieldForce 0495DataF\
ieldAbsolutePressure 0496DataFieldGaugePressure 0497DataFieldStrain 0498DataFieldWeight 04\
a0PropertyMechanical 04a1PropertyVibrationState 04a2PropertyForwardVibrationSpeed 04a3Prop\
ertyBackwardVibrationSpeed 04b0DataFieldBiometric 04b1DataFieldHumanPresence 04b2DataField\
HumanProximityRange 04b3DataFieldHumanProximityOutofRange 04b4DataFieldHumanTouchState 04b\
5DataFieldBloodPressure 04b6DataFieldBloodPressureDiastolic 04b7DataFieldBloodPressureSyst\
olic 04b8DataFieldHeartRate 04b9DataFieldRestingHeartRate 04baDataFieldHeartbeatInterval 0\
4bbDataFieldRespiratoryRate 04bcDataFieldSpO2 04bdDataFieldHumanAttentionDetected 04beData\
FieldHumanHeadAzimuth 04bfDataFieldHumanHeadAltitude 04c0DataFieldHumanHeadRoll 04c1DataFi\
eldHumanHeadPitch 04c2DataFieldHumanHeadYaw 04c3DataFieldHumanCorrelationId 04d0DataFieldL\
ight 04d1DataFieldIlluminance 04d2DataFieldColorTemperature 04d3DataFieldChromaticity 04d4\
DataFieldChromaticityX 04d5DataFieldChromaticityY 04d6DataFieldConsumerIRSentenceReceive 0\
4d7DataFieldInfraredLight 04d8DataFieldRedLight 04d9DataFieldGreenLight 04daDataFieldBlueL\
ight 04dbDataFieldUltravioletALight 04dcDataFieldUltravioletBLight 04ddDataFieldUltraviole\
tIndex 04deDataFieldNearInfraredLight 04dfPropertyLight 04e0PropertyConsumerIRSentenceSend\
\x2004e2PropertyAutoBrightnessPreferred 04e3PropertyAutoColorPreferred 04f0DataFieldScanner 0\
4f1DataFieldRFIDTag40Bit 04f2DataFieldNFCSentenceReceive 04f8PropertyScanner 04f9PropertyN\
FCSentenceSend 0500DataFieldElectrical 0501DataFieldCapacitance 0502DataFieldCurrent 0503D\
ataFieldElectricalPower 0504DataFieldInductance 0505DataFieldResistance 0506DataFieldVolta\
ge 0507DataFieldFrequency 0508DataFieldPeriod 0509DataFieldPercentofRange 0520DataFieldTim\
e 0521DataFieldYear 0522DataFieldMonth 0523DataFieldDay 0524DataFieldDayofWeek 0525DataFie\
ldHour 0526DataFieldMinute 0527DataFieldSecond 0528DataFieldMillisecond 0529DataFieldTimes\
tamp 052aDataFieldJulianDayofYear 052bDataFieldTimeSinceSystemBoot 0530PropertyTime 0531Pr\
opertyTimeZoneOffsetfromUTC 0532PropertyTimeZoneName 0533PropertyDaylightSavingsTimeObserv\
ed 0534PropertyTimeTrimAdjustment 0535PropertyArmAlarm 0540DataFieldCustom 0541DataFieldCu\
stomUsage 0542DataFieldCustomBooleanArray 0543DataFieldCustomValue 0544DataFieldCustomValu\
e1 0545DataFieldCustomValue2 0546DataFieldCustomValue3 0547DataFieldCustomValue4 0548DataF\
ieldCustomValue5 0549DataFieldCustomValue6 054aDataFieldCustomValue7 054bDataFieldCustomVa\
lue8 054cDataFieldCustomValue9 054dDataFieldCustomValue10 054eDataFieldCustomValue11 054fD\
ataFieldCustomValue12 0550DataFieldCustomValue13 0551DataFieldCustomValue14 0552DataFieldC\
ustomValue15 0553DataFieldCustomValue16 0554DataFieldCustomValue17 0555DataFieldCustomValu\
e18 0556DataFieldCustomValue19 0557DataFieldCustomValue20 0558DataFieldCustomValue21 0559D\
ataFieldCustomValue22 055aDataFieldCustomValue23 055bDataFieldCustomValue24 055cDataFieldC\
ustomValue25 055dDataFieldCustomValue26 055eDataFieldCustomValue27 055fDataFieldCustomValu\
e28 0560DataFieldGeneric 0561DataFieldGenericGUIDorPROPERTYKEY 0562DataFieldGenericCategor\
yGUID 0563DataFieldGenericTypeGUID 0564DataFieldGenericEventPROPERTYKEY 0565DataFieldGener\
icPropertyPROPERTYKEY 0566DataFieldGenericDataFieldPROPERTYKEY 0567DataFieldGenericEvent 0\
568DataFieldGenericProperty 0569DataFieldGenericDataField 056aDataFieldEnumeratorTableRowI\
ndex 056bDataFieldEnumeratorTableRowCount 056cDataFieldGenericGUIDorPROPERTYKEYkind 056dDa\
taFieldGenericGUID 056eDataFieldGenericPROPERTYKEY 056fDataFieldGenericTopLevelCollectionI\
D 0570DataFieldGenericReportID 0571DataFieldGenericReportItemPositionIndex 0572DataFieldGe\
nericFirmwareVARTYPE 0573DataFieldGenericUnitofMeasure 0574DataFieldGenericUnitExponent 05\
75DataFieldGenericReportSize 0576DataFieldGenericReportCount 0580PropertyGeneric 0581Prope\
rtyEnumeratorTableRowIndex 0582PropertyEnumeratorTableRowCount 0590DataFieldPersonalActivi\
ty 0591DataFieldActivityType 0592DataFieldActivityState 0593DataFieldDevicePosition 0594Da\
taFieldStepCount 0595DataFieldStepCountReset 0596DataFieldStepDuration 0597DataFieldStepTy\
pe 05a0PropertyMinimumActivityDetectionInterval 05a1PropertySupportedActivityTypes 05a2Pro\
pertySubscribedActivityTypes 05a3PropertySupportedStepTypes 05a4PropertySubscribedStepType\
s 05a5PropertyFloorHeight 05b0DataFieldCustomTypeID 05c0PropertyCustom 05c1PropertyCustomV\
alue1 05c2PropertyCustomValue2 05c3PropertyCustomValue3 05c4PropertyCustomValue4 05c5Prope\
rtyCustomValue5 05c6PropertyCustomValue6 05c7PropertyCustomValue7 05c8PropertyCustomValue8\
\x2005c9PropertyCustomValue9 05caPropertyCustomValue10 05cbPropertyCustomValue11 05ccProperty\
CustomValue12 05cdPropertyCustomValue13 05cePropertyCustomValue14 05cfPropertyCustomValue1\
5 05d0PropertyCustomValue16 05e0DataFieldHinge 05e1DataFieldHingeAngle 05f0DataFieldGestur\
eSensor 05f1DataFieldGestureState 05f2DataFieldHingeFoldInitialAngle 05f3DataFieldHingeFol\
dFinalAngle 05f4DataFieldHingeFoldContributingPanel 05f5DataFieldHingeFoldType 0800SensorS\
tateUndefined 0801SensorStateReady 0802SensorStateNotAvailable 0803SensorStateNoData 0804S\
ensorStateInitializing 0805SensorStateAccessDenied 0806SensorStateError 0810SensorEventUnk\
nown 0811SensorEventStateChanged 0812SensorEventPropertyChanged 0813SensorEventDataUpdated\
\x200814SensorEventPollResponse 0815SensorEventChangeSensitivity 0816SensorEventRangeMaximumR\
eached 0817SensorEventRangeMinimumReached 0818SensorEventHighThresholdCrossUpward 0819Sens\
orEventHighThresholdCrossDownward 081aSensorEventLowThresholdCrossUpward 081bSensorEventLo\
wThresholdCrossDownward 081cSensorEventZeroThresholdCrossUpward 081dSensorEventZeroThresho\
ldCrossDownward 081eSensorEventPeriodExceeded 081fSensorEventFrequencyExceeded 0820SensorE\
ventComplexTrigger 0830ConnectionTypePCIntegrated 0831ConnectionTypePCAttached 0832Connect\
ionTypePCExternal 0840ReportingStateReportNoEvents 0841ReportingStateReportAllEvents 0842R\
eportingStateReportThresholdEvents 0843ReportingStateWakeOnNoEvents 0844ReportingStateWake\
OnAllEvents 0845ReportingStateWakeOnThresholdEvents 0846ReportingStateAnytime 0850PowerSta\
teUndefined 0851PowerStateD0FullPower 0852PowerStateD1LowPower 0853PowerStateD2StandbyPowe\
rwithWakeup 0854PowerStateD3SleepwithWakeup 0855PowerStateD4PowerOff 0860AccuracyDefault 0\
861AccuracyHigh 0862AccuracyMedium 0863AccuracyLow 0870FixQualityNoFix 0871FixQualityGPS 0\
872FixQualityDGPS 0880FixTypeNoFix 0881FixTypeGPSSPSModeFixValid 0882FixTypeDGPSSPSModeFix\
Valid 0883FixTypeGPSPPSModeFixValid 0884FixTypeRealTimeKinematic 0885FixTypeFloatRTK 0886F\
ixTypeEstimateddeadreckoned 0887FixTypeManualInputMode 0888FixTypeSimulatorMode 0890GPSOpe\
rationModeManual 0891GPSOperationModeAutomatic 08a0GPSSelectionModeAutonomous 08a1GPSSelec\
tionModeDGPS 08a2GPSSelectionModeEstimateddeadreckoned 08a3GPSSelectionModeManualInput 08a\
4GPSSelectionModeSimulator 08a5GPSSelectionModeDataNotValid 08b0GPSStatusDataValid 08b1GPS\
StatusDataNotValid 08c0DayofWeekSunday 08c1DayofWeekMonday 08c2DayofWeekTuesday 08c3DayofW\
eekWednesday 08c4DayofWeekThursday 08c5DayofWeekFriday 08c6DayofWeekSaturday 08d0KindCateg\
ory 08d1KindType 08d2KindEvent 08d3KindProperty 08d4KindDataField 08e0MagnetometerAccuracy\
Low 08e1MagnetometerAccuracyMedium 08e2MagnetometerAccuracyHigh 08f0SimpleOrientationDirec\
tionNotRotated 08f1SimpleOrientationDirectionRotated90DegreesCCW 08f2SimpleOrientationDire\
ctionRotated180DegreesCCW 08f3SimpleOrientationDirectionRotated270DegreesCCW 08f4SimpleOri\
entationDirectionFaceUp 08f5SimpleOrientationDirectionFaceDown 0900VT_NULL 0901VT_BOOL 090\
2VT_UI1 0903VT_I1 0904VT_UI2 0905VT_I2 0906VT_UI4 0907VT_I4 0908VT_UI8 0909VT_I8 090aVT_R4\
\x20090bVT_R8 090cVT_WSTR 090dVT_STR 090eVT_CLSID 090fVT_VECTORVT_UI1 0910VT_F16E0 0911VT_F16\
E1 0912VT_F16E2 0913VT_F16E3 0914VT_F16E4 0915VT_F16E5 0916VT_F16E6 0917VT_F16E7 0918VT_F1\
6E8 0919VT_F16E9 091aVT_F16EA 091bVT_F16EB 091cVT_F16EC 091dVT_F16ED 091eVT_F16EE 091fVT_F\
16EF 0920VT_F32E0 0921VT_F32E1 0922VT_F32E2 0923VT_F32E3 0924VT_F32E4 0925VT_F32E5 0926VT_\
F32E6 0927VT_F32E7 0928VT_F32E8 0929VT_F32E9 092aVT_F32EA 092bVT_F32EB 092cVT_F32EC 092dVT\
_F32ED 092eVT_F32EE 092fVT_F32EF 0930ActivityTypeUnknown 0931ActivityTypeStationary 0932Ac\
tivityTypeFidgeting 0933ActivityTypeWalking 0934ActivityTypeRunning 0935ActivityTypeInVehi\
cle 0936ActivityTypeBiking 0937ActivityTypeIdle 0940UnitNotSpecified 0941UnitLux 0942UnitD\
egreesKelvin 0943UnitDegreesCelsius 0944UnitPascal 0945UnitNewton 0946UnitMetersSecond 094\
7UnitKilogram 0948UnitMeter 0949UnitMetersSecondSecond 094aUnitFarad 094bUnitAmpere 094cUn\
itWatt 094dUnitHenry 094eUnitOhm 094fUnitVolt 0950UnitHertz 0951UnitBar 0952UnitDegreesAnt\
iclockwise 0953UnitDegreesClockwise 0954UnitDegrees 0955UnitDegreesSecond 0956UnitDegreesS\
econdSecond 0957UnitKnot 0958UnitPercent 0959UnitSecond 095aUnitMillisecond 095bUnitG 095c\
UnitBytes 095dUnitMilligauss 095eUnitBits 0960ActivityStateNoStateChange 0961ActivityState\
StartActivity 0962ActivityStateEndActivity 0970Exponent0 0971Exponent1 0972Exponent2 0973E\
xponent3 0974Exponent4 0975Exponent5 0976Exponent6 0977Exponent7 0978Exponent8 0979Exponen\
t9 097aExponentA 097bExponentB 097cExponentC 097dExponentD 097eExponentE 097fExponentF 098\
0DevicePositionUnknown 0981DevicePositionUnchanged 0982DevicePositionOnDesk 0983DevicePosi\
tionInHand 0984DevicePositionMovinginBag 0985DevicePositionStationaryinBag 0990StepTypeUnk\
nown 0991StepTypeWalking 0992StepTypeRunning 09a0GestureStateUnknown 09a1GestureStateStart\
ed 09a2GestureStateCompleted 09a3GestureStateCancelled 09b0HingeFoldContributingPanelUnkno\
wn 09b1HingeFoldContributingPanelPanel1 09b2HingeFoldContributingPanelPanel2 09b3HingeFold\
ContributingPanelBoth 09b4HingeFoldTypeUnknown 09b5HingeFoldTypeIncreasing 09b6HingeFoldTy\
peDecreasing 09c0HumanPresenceDetectionTypeVendorDefinedNonBiometric 09c1HumanPresenceDete\
ctionTypeVendorDefinedBiometric 09c2HumanPresenceDetectionTypeFacialBiometric 09c3HumanPre\
senceDetectionTypeAudioBiometric 1000ModifierChangeSensitivityAbsolute 2000ModifierMaximum\
\x203000ModifierMinimum 4000ModifierAccuracy 5000ModifierResolution 6000ModifierThresholdHigh\
\x207000ModifierThresholdLow 8000ModifierCalibrationOffset 9000ModifierCalibrationMultiplier\x20\
a000ModifierReportInterval b000ModifierFrequencyMax c000ModifierPeriodMax d000ModifierChan\
geSensitivityPercentofRange e000ModifierChangeSensitivityPercentRelative f000ModifierVendo\
rReserved";

#[rattlefmt::skip]
static USAGES_40: &str = "\
\x200001MedicalUltrasound 0020VCRAcquisition 0021FreezeThaw 0022ClipStore 0023Update 0024Next\
\x200025Save 0026Print 0027MicrophoneEnable 0040Cine 0041TransmitPower 0042Volume 0043Focus 0\
044Depth 0060SoftStepPrimary 0061SoftStepSecondary 0070DepthGainCompensation 0080ZoomSelec\
t 0081ZoomAdjust 0082SpectralDopplerModeSelect 0083SpectralDopplerAdjust 0084ColorDopplerM\
odeSelect 0085ColorDopplerAdjust 0086MotionModeSelect 0087MotionModeAdjust 0088TwoDModeSel\
ect 0089TwoDModeAdjust 00a0SoftControlSelect 00a1SoftControlAdjust";

#[rattlefmt::skip]
static USAGES_41: &str = "\
\x200001BrailleDisplay 0002BrailleRow 0003EightDotBrailleCell 0004SixDotBrailleCell 0005Numbe\
rofBrailleCells 0006ScreenReaderControl 0007ScreenReaderIdentifier 00faRouterSet1 00fbRout\
erSet2 00fcRouterSet3 0100RouterKey 0101RowRouterKey 0200BrailleButtons 0201BrailleKeyboar\
dDot1 0202BrailleKeyboardDot2 0203BrailleKeyboardDot3 0204BrailleKeyboardDot4 0205BrailleK\
eyboardDot5 0206BrailleKeyboardDot6 0207BrailleKeyboardDot7 0208BrailleKeyboardDot8 0209Br\
ailleKeyboardSpace 020aBrailleKeyboardLeftSpace 020bBrailleKeyboardRightSpace 020cBrailleF\
aceControls 020dBrailleLeftControls 020eBrailleRightControls 020fBrailleTopControls 0210Br\
ailleJoystickCenter 0211BrailleJoystickUp 0212BrailleJoystickDown 0213BrailleJoystickLeft\x20\
0214BrailleJoystickRight 0215BrailleDPadCenter 0216BrailleDPadUp 0217BrailleDPadDown 0218B\
railleDPadLeft 0219BrailleDPadRight 021aBraillePanLeft 021bBraillePanRight 021cBrailleRock\
erUp 021dBrailleRockerDown 021eBrailleRockerPress";

#[rattlefmt::skip]
static USAGES_59: &str = "\
\x200001LampArray 0002LampArrayAttributesReport 0003LampCount 0004BoundingBoxWidthInMicromete\
rs 0005BoundingBoxHeightInMicrometers 0006BoundingBoxDepthInMicrometers 0007LampArrayKind\x20\
0008MinUpdateIntervalInMicroseconds 0020LampAttributesRequestReport 0021LampId 0022LampAtt\
ributesResponseReport 0023PositionXInMicrometers 0024PositionYInMicrometers 0025PositionZI\
nMicrometers 0026LampPurposes 0027UpdateLatencyInMicroseconds 0028RedLevelCount 0029GreenL\
evelCount 002aBlueLevelCount 002bIntensityLevelCount 002cIsProgrammable 002dInputBinding 0\
050LampMultiUpdateReport 0051RedUpdateChannel 0052GreenUpdateChannel 0053BlueUpdateChannel\
\x200054IntensityUpdateChannel 0055LampUpdateFlags 0060LampRangeUpdateReport 0061LampIdStart\x20\
0062LampIdEnd 0070LampArrayControlReport 0071AutonomousMode";

#[rattlefmt::skip]
static USAGES_80: &str = "\
\x200001MonitorControl 0002EDIDInformation 0003VDIFInformation 0004VESAVersion";

#[rattlefmt::skip]
static USAGES_82: &str = "\
\x200001Degauss 0010Brightness 0012Contrast 0016RedVideoGain 0018GreenVideoGain 001aBlueVideo\
Gain 001cFocus 0020HorizontalPosition 0022HorizontalSize 0024HorizontalPincushion 0026Hori\
zontalPincushionBalance 0028HorizontalMisconvergence 002aHorizontalLinearity 002cHorizonta\
lLinearityBalance 0030VerticalPosition 0032VerticalSize 0034VerticalPincushion 0036Vertica\
lPincushionBalance 0038VerticalMisconvergence 003aVerticalLinearity 003cVerticalLinearityB\
alance 0040ParallelogramDistortionKeyBalance 0042TrapezoidalDistortionKey 0044TiltRotation\
\x200046TopCornerDistortionControl 0048TopCornerDistortionBalance 004aBottomCornerDistortionC\
ontrol 004cBottomCornerDistortionBalance 005eInputLevelSelect 0060InputSourceSelect 006cRe\
dVideoBlackLevel 006eGreenVideoBlackLevel 0070BlueVideoBlackLevel 00a2AutoSizeCenter 00a4P\
olarityHorizontalSynchronization 00a6PolarityVerticalSynchronization 00a8SynchronizationTy\
pe 00aaScreenOrientation 00acHorizontalFrequency 00aeVerticalFrequency 00b0Settings 00caOn\
ScreenDisplay 00d4StereoMode";

#[rattlefmt::skip]
static USAGES_84: &str = "\
\x200001iName 0002PresentStatus 0003ChangedStatus 0004UPS 0005PowerSupply 0010BatterySystem 0\
011BatterySystemId 0012Battery 0013BatteryId 0014Charger 0015ChargerId 0016PowerConverter\x20\
0017PowerConverterId 0018OutletSystem 0019OutletSystemId 001aInput 001bInputId 001cOutput\x20\
001dOutputId 001eFlow 001fFlowId 0020Outlet 0021OutletId 0022Gang 0023GangId 0024PowerSumm\
ary 0025PowerSummaryId 0030Voltage 0031Current 0032Frequency 0033ApparentPower 0034ActiveP\
ower 0035PercentLoad 0036Temperature 0037Humidity 0038BadCount 0040ConfigVoltage 0041Confi\
gCurrent 0042ConfigFrequency 0043ConfigApparentPower 0044ConfigActivePower 0045ConfigPerce\
ntLoad 0046ConfigTemperature 0047ConfigHumidity 0050SwitchOnControl 0051SwitchOffControl 0\
052ToggleControl 0053LowVoltageTransfer 0054HighVoltageTransfer 0055DelayBeforeReboot 0056\
DelayBeforeStartup 0057DelayBeforeShutdown 0058Test 0059ModuleReset 005aAudibleAlarmContro\
l 0060Present 0061Good 0062InternalFailure 0063VoltagOutOfRange 0064FrequencyOutOfRange 00\
65Overload 0066OverCharged 0067OverTemperature 0068ShutdownRequested 0069ShutdownImminent\x20\
006bSwitchOnOff 006cSwitchable 006dUsed 006eBoost 006fBuck 0070Initialized 0071Tested 0072\
AwaitingPower 0073CommunicationLost 00fdiManufacturer 00feiProduct 00ffiSerialNumber";

#[rattlefmt::skip]
static USAGES_85: &str = "\
\x200001SmartBatteryBatteryMode 0002SmartBatteryBatteryStatus 0003SmartBatteryAlarmWarning 00\
04SmartBatteryChargerMode 0005SmartBatteryChargerStatus 0006SmartBatteryChargerSpecInfo 00\
07SmartBatterySelectorState 0008SmartBatterySelectorPresets 0009SmartBatterySelectorInfo 0\
010OptionalMfgFunction1 0011OptionalMfgFunction2 0012OptionalMfgFunction3 0013OptionalMfgF\
unction4 0014OptionalMfgFunction5 0015ConnectionToSMBus 0016OutputConnection 0017ChargerCo\
nnection 0018BatteryInsertion 0019UseNext 001aOKToUse 001bBatterySupported 001cSelectorRev\
ision 001dChargingIndicator 0028ManufacturerAccess 0029RemainingCapacityLimit 002aRemainin\
gTimeLimit 002bAtRate 002cCapacityMode 002dBroadcastToCharger 002ePrimaryBattery 002fCharg\
eController 0040TerminateCharge 0041TerminateDischarge 0042BelowRemainingCapacityLimit 004\
3RemainingTimeLimitExpired 0044Charging 0045Discharging 0046FullyCharged 0047FullyDischarg\
ed 0048ConditioningFlag 0049AtRateOK 004aSmartBatteryErrorCode 004bNeedReplacement 0060AtR\
ateTimeToFull 0061AtRateTimeToEmpty 0062AverageCurrent 0063MaxError 0064RelativeStateOfCha\
rge 0065AbsoluteStateOfCharge 0066RemainingCapacity 0067FullChargeCapacity 0068RunTimeToEm\
pty 0069AverageTimeToEmpty 006aAverageTimeToFull 006bCycleCount 0080BatteryPackModelLevel\x20\
0081InternalChargeController 0082PrimaryBatterySupport 0083DesignCapacity 0084Specificatio\
nInfo 0085ManufactureDate 0086SerialNumber 0087iManufacturerName 0088iDeviceName 0089iDevi\
ceChemistry 008aManufacturerData 008bRechargable 008cWarningCapacityLimit 008dCapacityGran\
ularity1 008eCapacityGranularity2 008fiOEMInformation 00c0InhibitCharge 00c1EnablePolling\x20\
00c2ResetToZero 00d0ACPresent 00d1BatteryPresent 00d2PowerFail 00d3AlarmInhibited 00d4Ther\
mistorUnderRange 00d5ThermistorHot 00d6ThermistorCold 00d7ThermistorOverRange 00d8VoltageO\
utOfRange 00d9CurrentOutOfRange 00daCurrentNotRegulated 00dbVoltageNotRegulated 00dcMaster\
Mode 00f0ChargerSelectorSupport 00f1ChargerSpec 00f2Level2 00f3Level3";

#[rattlefmt::skip]
static USAGES_8C: &str = "\
\x200001BarcodeBadgeReader 0002BarcodeScanner 0003DumbBarCodeScanner 0004CordlessScannerBase\x20\
0005BarCodeScannerCradle 0010AttributeReport 0011SettingsReport 0012ScannedDataReport 0013\
RawScannedDataReport 0014TriggerReport 0015StatusReport 0016UPCEANControlReport 0017EAN23L\
abelControlReport 0018Code39ControlReport 0019Interleaved2of5ControlReport 001aStandard2of\
5ControlReport 001bMSIPlesseyControlReport 001cCodabarControlReport 001dCode128ControlRepo\
rt 001eMisc1DControlReport 001fTwoDControlReport 0030AimingPointerMode 0031BarCodePresentS\
ensor 0032Class1ALaser 0033Class2Laser 0034HeaterPresent 0035ContactScanner 0036Electronic\
ArticleSurveillanceNotification 0037ConstantElectronicArticleSurveillance 0038ErrorIndicat\
ion 0039FixedBeeper 003aGoodDecodeIndication 003bHandsFreeScanning 003cIntrinsicallySafe 0\
03dKlasseEinsLaser 003eLongRangeScanner 003fMirrorSpeedControl 0040NotOnFileIndication 004\
1ProgrammableBeeper 0042Triggerless 0043Wand 0044WaterResistant 0045MultiRangeScanner 0046\
ProximitySensor 004dFragmentDecoding 004eScannerReadConfidence 004fDataPrefix 0050PrefixAI\
MI 0051PrefixNone 0052PrefixProprietary 0055ActiveTime 0056AimingLaserPattern 0057BarCodeP\
resent 0058BeeperState 0059LaserOnTime 005aLaserState 005bLockoutTime 005cMotorState 005dM\
otorTimeout 005ePowerOnResetScanner 005fPreventReadofBarcodes 0060InitiateBarcodeRead 0061\
TriggerState 0062TriggerMode 0063TriggerModeBlinkingLaserOn 0064TriggerModeContinuousLaser\
On 0065TriggerModeLaseronwhilePulled 0066TriggerModeLaserstaysonafterrelease 006dCommitPar\
ameterstoNVM 006eParameterScanning 006fParametersChanged 0070Setparameterdefaultvalues 007\
5ScannerInCradle 0076ScannerInRange 007aAimDuration 007bGoodReadLampDuration 007cGoodReadL\
ampIntensity 007dGoodReadLED 007eGoodReadToneFrequency 007fGoodReadToneLength 0080GoodRead\
ToneVolume 0082NoReadMessage 0083NotonFileVolume 0084PowerupBeep 0085SoundErrorBeep 0086So\
undGoodReadBeep 0087SoundNotOnFileBeep 0088GoodReadWhentoWrite 0089GRWTIAfterDecode 008aGR\
WTIBeepLampaftertransmit 008bGRWTINoBeepLampuseatall 0091BooklandEAN 0092ConvertEAN8to13Ty\
pe 0093ConvertUPCAtoEAN13 0094ConvertUPCEtoA 0095EAN13 0096EAN8 0097EAN99128Mandatory 0098\
EAN99P5128Optional 0099EnableEANTwoLabel 009aUPCEAN 009bUPCEANCouponCode 009cUPCEANPeriodi\
cals 009dUPCA 009eUPCAwith128Mandatory 009fUPCAwith128Optional 00a0UPCAwithP5Optional 00a1\
UPCE 00a2UPCE1 00a9Periodical 00aaPeriodicalAutoDiscriminatePlus2 00abPeriodicalOnlyDecode\
withPlus2 00acPeriodicalIgnorePlus2 00adPeriodicalAutoDiscriminatePlus5 00aePeriodicalOnly\
DecodewithPlus5 00afPeriodicalIgnorePlus5 00b0Check 00b1CheckDisablePrice 00b2CheckEnable4\
digitPrice 00b3CheckEnable5digitPrice 00b4CheckEnableEuropean4digitPrice 00b5CheckEnableEu\
ropean5digitPrice 00b7EANTwoLabel 00b8EANThreeLabel 00b9EAN8FlagDigit1 00baEAN8FlagDigit2\x20\
00bbEAN8FlagDigit3 00bcEAN13FlagDigit1 00bdEAN13FlagDigit2 00beEAN13FlagDigit3 00bfAddEAN2\
3LabelDefinition 00c0ClearallEAN23LabelDefinitions 00c3Codabar 00c4Code128 00c7Code39 00c8\
Code93 00c9FullASCIIConversion 00caInterleaved2of5 00cbItalianPharmacyCode 00ccMSIPlessey\x20\
00cdStandard2of5IATA 00ceStandard2of5 00d3TransmitStartStop 00d4TriOptic 00d5UCCEAN128 00d\
6CheckDigit 00d7CheckDigitDisable 00d8CheckDigitEnableInterleaved2of5OPCC 00d9CheckDigitEn\
ableInterleaved2of5USS 00daCheckDigitEnableStandard2of5OPCC 00dbCheckDigitEnableStandard2o\
f5USS 00dcCheckDigitEnableOneMSIPlessey 00ddCheckDigitEnableTwoMSIPlessey 00deCheckDigitCo\
dabarEnable 00dfCheckDigitCode39Enable 00f0TransmitCheckDigit 00f1DisableCheckDigitTransmi\
t 00f2EnableCheckDigitTransmit 00fbSymbologyIdentifier1 00fcSymbologyIdentifier2 00fdSymbo\
logyIdentifier3 00feDecodedData 00ffDecodeDataContinued 0100BarSpaceData 0101ScannerDataAc\
curacy 0102RawDataPolarity 0103PolarityInvertedBarCode 0104PolarityNormalBarCode 0106Minim\
umLengthtoDecode 0107MaximumLengthtoDecode 0108DiscreteLengthtoDecode1 0109DiscreteLengtht\
oDecode2 010aDataLengthMethod 010bDLMethodReadany 010cDLMethodCheckinRange 010dDLMethodChe\
ckforDiscrete 0110AztecCode 0111BC412 0112ChannelCode 0113Code16 0114Code32 0115Code49 011\
6CodeOne 0117Colorcode 0118DataMatrix 0119MaxiCode 011aMicroPDF 011bPDF417 011cPosiCode 01\
1dQRCode 011eSuperCode 011fUltraCode 0120USD5SlugCode 0121VeriCode";

#[rattlefmt::skip]
static USAGES_8D: &str = "\
\x200001Scales 0020ScaleDevice 0021ScaleClass 0022ScaleClassIMetric 0023ScaleClassIIMetric 00\
24ScaleClassIIIMetric 0025ScaleClassIIILMetric 0026ScaleClassIVMetric 0027ScaleClassIIIEng\
lish 0028ScaleClassIIILEnglish 0029ScaleClassIVEnglish 002aScaleClassGeneric 0030ScaleAttr\
ibuteReport 0031ScaleControlReport 0032ScaleDataReport 0033ScaleStatusReport 0034ScaleWeig\
htLimitReport 0035ScaleStatisticsReport 0040DataWeight 0041DataScaling 0050WeightUnit 0051\
WeightUnitMilligram 0052WeightUnitGram 0053WeightUnitKilogram 0054WeightUnitCarats 0055Wei\
ghtUnitTaels 0056WeightUnitGrains 0057WeightUnitPennyweights 0058WeightUnitMetricTon 0059W\
eightUnitAvoirTon 005aWeightUnitTroyOunce 005bWeightUnitOunce 005cWeightUnitPound 0060Cali\
brationCount 0061ReZeroCount 0070ScaleStatus 0071ScaleStatusFault 0072ScaleStatusStableatC\
enterofZero 0073ScaleStatusInMotion 0074ScaleStatusWeightStable 0075ScaleStatusUnderZero 0\
076ScaleStatusOverWeightLimit 0077ScaleStatusRequiresCalibration 0078ScaleStatusRequiresRe\
zeroing 0080ZeroScale 0081EnforcedZeroReturn";

#[rattlefmt::skip]
static USAGES_8E: &str = "\
\x200001MSRDeviceReadOnly 0011Track1Length 0012Track2Length 0013Track3Length 0014TrackJISLeng\
th 0020TrackData 0021Track1Data 0022Track2Data 0023Track3Data 0024TrackJISData";

#[rattlefmt::skip]
static USAGES_90: &str = "\
\x200020CameraAutofocus 0021CameraShutter";

#[rattlefmt::skip]
static USAGES_91: &str = "\
\x200001GeneralPurposeIOCard 0002CoinDoor 0003WatchdogTimer 0030GeneralPurposeAnalogInputStat\
e 0031GeneralPurposeDigitalInputState 0032GeneralPurposeOpticalInputState 0033GeneralPurpo\
seDigitalOutputState 0034NumberofCoinDoors 0035CoinDrawerDropCount 0036CoinDrawerStart 003\
7CoinDrawerService 0038CoinDrawerTilt 0039CoinDoorTest 0040CoinDoorLockout 0041WatchdogTim\
eout 0042WatchdogAction 0043WatchdogReboot 0044WatchdogRestart 0045AlarmInput 0046CoinDoor\
Counter 0047IODirectionMapping 0048SetIODirectionMapping 0049ExtendedOpticalInputState 004\
aPinPadInputState 004bPinPadStatus 004cPinPadOutput 004dPinPadCommand";

#[rattlefmt::skip]
static USAGES_F1D0: &str = "\
\x200001U2FAuthenticatorDevice 0020InputReportData 0021OutputReportData";
